//! The loop of a matcher over an input.

ghost use Rattle.std.specs.Prelude.{◌≡◌, []};
ghost use Rattle.flow_edges.specs.Faults.{Counted};
ghost use Rattle.flow_edges.specs.Streams.{streams};
ghost use Rattle.pattern_types.specs.PlainPattern.{plain_pattern};
ghost use Rattle.pattern_types.specs.Soundness.{IsSoundPattern};
ghost use Rattle.match_stream.specs.MatcherState.{MatcherRepresents};
ghost use Rattle.match_run.specs.Matching.{AnswersMatch};

use crate::batch::match_batch;
use crate::tally::Tally;
use crate::{MatchEnd, Mode};
use flow_edges::{Sink, Source};
use flow_values::NoMemory;
use match_input::Reader;
use match_input::laws::continues;
use match_stream::Matcher;
use match_stream::laws::answers_are_the_listing;
use std::alloc::Global;
use stix_bundles::laws::observations_are_spans;

/// Matches a pattern against an input, and writes the bindings in the order of their last
/// observations, those of a bundle before more is read than its line. Ends with the input, at the
/// first refused line, or at the first observation where the matcher exceeds its limit.
pub fn match_stream<I: Source, O: Sink>(
    alloc: Global,
    matcher: &mut Matcher<'_>,
    input: &mut I,
    output: &mut O,
    mode: Mode,
) -> MatchEnd
    // The matcher is new: it represents the empty log.
    requires start { MatcherRepresents matcher.old [] }
    requires sound { IsSoundPattern (plain_pattern matcher.old.pattern) }
    ensures end { AnswersMatch mode matcher.old.pattern matcher.old.retained_limit
        (streams (I.left input.old) (I.began input.old) (O.written output.old))
        (streams (I.left input.new) (I.began input.new) (O.written output.new)) matcher.new result }
    ensures kept { (matcher.new.pattern ≡ matcher.old.pattern)
        × (matcher.new.retained_limit ≡ matcher.old.retained_limit) }
    ensures input { Counted (result ≡ MatchEnd.ReadFault) (I.faults input.old)
        (I.faults input.new) }
    // A write fault is reported exactly where the output counted one.
    ensures output { Counted (result ≡ MatchEnd.WriteFault) (O.faults output.old)
        (O.faults output.new) }
{
    continues();
    observations_are_spans();
    answers_are_the_listing();
    let mut reader = match Reader::new(alloc, mode) {
        Ok(reader) => reader,
        Err(NoMemory) => return MatchEnd::NoMemory,
    };
    let mut tally = Tally::new();
    'bundles: loop {
        let batch = match reader.next(input) {
            Ok(Some(batch)) => batch,
            Ok(None) => return tally.done(),
            Err(end) => return MatchEnd::from(end),
        };
        match match_batch(alloc, matcher, &batch, &mut tally, output) {
            Ok(()) => {}
            Err(end) => return end,
        }
    }
}
