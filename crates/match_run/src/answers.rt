//! One observation: from the truths of the brackets to the bindings that end there.

ghost use Rattle.std.specs.Prelude.{◌≡◌, ◌≢◌, ◌+◌, ◌≤ℤ◌, Err, List, map, IfOk, IfErr};
ghost use Rattle.serde_json.specs.Data.{Data};
ghost use Rattle.pattern_types.specs.PlainPattern.{plain_pattern};
ghost use Rattle.match_comparisons.specs.Truths.{AreTruths};
ghost use Rattle.match_bindings.specs.BindTree.{tree_of};
ghost use Rattle.match_stream.specs.MatcherState.{Falls};
ghost use Rattle.match_run.specs.inner.MatchEnds.{MayEndMatching, end_of_match};
ghost use Rattle.match_run.specs.inner.Rows.{so_far, IsAtSome, TakesObservation, StopsAtRow};

use crate::MatchEnd;
use crate::tally::Tally;
use flow_values::Items;
use match_bindings::Bind;
use match_stream::{Ending, MatchRefusal, Matcher};
use stix_bundles::Observation;

/// Gives an observation with these truths to the matcher, and counts the bindings that end there.
pub(crate) fn answer(
    matcher: &mut Matcher<'_>,
    observation: &Observation,
    truths: &[bool],
    tally: &mut Tally,
) -> Result<Items<Bind>, MatchEnd>
    requires behind { IsAtSome (so_far matcher.old tally.old) }
    requires span { observation.now.first ≤ℤ observation.now.last }
    requires number { observation.now.number ≡ matcher.old.rows + 1 }
    requires order { ¬ (Falls matcher.old.last observation.now.last) }
    ensures row { (objects : List Data)
        → AreTruths objects observation.now.roots (plain_pattern matcher.old.pattern) truths.now
        → IfOk result (λ binds. TakesObservation objects observation.now
        (so_far matcher.old tally.old)
        (so_far matcher.new tally.new) (map tree_of binds)) }
    ensures end { (objects : List Data)
        → AreTruths objects observation.now.roots (plain_pattern matcher.old.pattern) truths.now
        → IfErr result (StopsAtRow objects observation.now (so_far matcher.old tally.old)
        matcher.new) }
    ensures unwritten { result ≢ Err MatchEnd.WriteFault }
    ensures kept { (matcher.new.pattern ≡ matcher.old.pattern)
        × (matcher.new.retained_limit ≡ matcher.old.retained_limit) }
{
    let number = observation.number;
    match matcher.take(observation.first, observation.last, truths) {
        Ok(binds) => {
            tally.count(number, binds.len());
            Ok(binds)
        }
        Err(refusal) => Err(end_of(refusal)),
    }
}

/// How the run ends where the matcher does.
fn end_of(refusal: MatchRefusal) -> MatchEnd
    requires { MayEndMatching refusal }
    ensures end { result ≡ end_of_match refusal }
    ensures unwritten { result ≢ MatchEnd.WriteFault }
{
    match refusal {
        MatchRefusal::Stopped(
            Ending::OverLimit {
                number,
                retained_limit,
            },
        ) => MatchEnd::OverLimit {
            number,
            retained_limit,
        },
        MatchRefusal::Stopped(Ending::NoMemory) => MatchEnd::NoMemory,
        MatchRefusal::Stopped(Ending::OutOfOrder { .. }) | MatchRefusal::Ended(_) => unreachable!(),
    }
}
