//! One bundle: from its observations to the lines of the bindings that end there.

ghost use Rattle.std.specs.Prelude.{◌≡◌, ◌↔◌, ◌+◌, [], Err, IsTrue, OnOk, IfErr};
ghost use Rattle.flow_edges.specs.Faults.{Counted};
ghost use Rattle.stix_bundles.specs.Objects.{data_in};
ghost use Rattle.pattern_types.specs.PlainPattern.{plain_pattern};
ghost use Rattle.pattern_types.specs.Soundness.{IsSoundPattern};
ghost use Rattle.match_run.specs.inner.MatchEnds.{HasCutLines};
ghost use Rattle.match_run.specs.inner.Rows.{so_far, IsAtSome, GoesThrough, StopsAtOne};
ghost use Rattle.match_run.specs.inner.Rows.{WritesBundle, StopsInBundleRows};
ghost use Rattle.match_run.specs.Reading.{MayFollow};
ghost use Rattle.match_run.specs.Reading.{bundle_of};

use crate::MatchEnd;
use crate::answers::answer;
use crate::lines::{add_lines, write_pending};
use crate::tally::Tally;
use flow_edges::Sink;
use match_comparisons::leaf_truths;
use match_input::Batch;
use match_stream::Matcher;
use std::alloc::Global;

/// Gives the observations of a bundle to the matcher, and writes the lines of the bindings that end
/// there, buffered. Where an observation exceeds the limit, writes the lines of those before it.
/// After lack of memory or a failed write nothing more is written.
pub(crate) fn match_batch<O: Sink>(
    alloc: Global,
    matcher: &mut Matcher<'_>,
    batch: &Batch,
    tally: &mut Tally,
    output: &mut O,
) -> Result<(), MatchEnd>
    requires sound { IsSoundPattern (plain_pattern matcher.old.pattern) }
    requires behind { IsAtSome (so_far matcher.old tally.old) }
    requires follow { MayFollow matcher.old.last (matcher.old.rows + 1) batch.now.observations }
    ensures rows { OnOk result (WritesBundle (bundle_of batch.now) (so_far matcher.old tally.old)
        (so_far matcher.new tally.new)
        (O.written output.old) (O.written output.new)) }
    ensures end { IfErr result (StopsInBundleRows (bundle_of batch.now)
        (so_far matcher.old tally.old)
        matcher.new
        (O.written output.old) (O.written output.new)) }
    ensures kept { (matcher.new.pattern ≡ matcher.old.pattern)
        × (matcher.new.retained_limit ≡ matcher.old.retained_limit) }
    ensures causes { Counted (result ≡ Err MatchEnd.WriteFault) (O.faults output.old)
        (O.faults output.new) }
{
    let mut pending = Vec::new(alloc);
    let ended = answer_all(alloc, matcher, batch, tally, &mut pending, output);
    if has_cut_lines(&ended) {
        return ended;
    }
    write_pending(&mut pending, output)?;
    ended
}

/// Whether an end comes in the middle of lines: out of memory, or a failed write.
fn has_cut_lines(ended: &Result<(), MatchEnd>) -> bool
    ensures { IsTrue result ↔ HasCutLines ended.now }
{
    matches!(ended, Err(MatchEnd::NoMemory | MatchEnd::WriteFault))
}

/// Gives the observations to the matcher, and appends the lines to the buffer.
fn answer_all<O: Sink>(
    alloc: Global,
    matcher: &mut Matcher<'_>,
    batch: &Batch,
    tally: &mut Tally,
    pending: &mut Vec<u8>,
    output: &mut O,
) -> Result<(), MatchEnd>
    requires sound { IsSoundPattern (plain_pattern matcher.old.pattern) }
    requires behind { IsAtSome (so_far matcher.old tally.old) }
    requires follow { MayFollow matcher.old.last (matcher.old.rows + 1) batch.now.observations }
    requires empty { pending.old.items ≡ [] }
    ensures rows { OnOk result (GoesThrough (data_in batch.now.bundle) batch.now.observations
        (so_far matcher.old tally.old)
        (so_far matcher.new tally.new) pending.new.items (O.written output.old)
        (O.written output.new)) }
    ensures end { IfErr result (StopsAtOne (data_in batch.now.bundle) batch.now.observations
        (so_far matcher.old tally.old)
        matcher.new pending.new.items (O.written output.old) (O.written output.new)) }
    ensures kept { (matcher.new.pattern ≡ matcher.old.pattern)
        × (matcher.new.retained_limit ≡ matcher.old.retained_limit) }
    ensures causes { Counted (result ≡ Err MatchEnd.WriteFault) (O.faults output.old)
        (O.faults output.new) }
{
    let observations = batch.observations.as_slice();
    let truths = leaf_truths(alloc, matcher.pattern(), observations, &batch.bundle)?;
    let rows = truths.as_slice();
    for at in 0..observations.len() {
        let binds = match answer(matcher, &observations[at], rows[at].as_slice(), tally) {
            Ok(binds) => binds,
            Err(end) => return Err(end),
        };
        match add_lines(alloc, binds.as_slice(), pending, output) {
            Ok(()) => {}
            Err(end) => return Err(end),
        }
    }
    Ok(())
}
