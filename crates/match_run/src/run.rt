//! The loop of a watcher over an input.

ghost use Rattle.std.specs.Prelude.{◌≡◌, ℕ, List, Option};
ghost use Rattle.flow_edges.specs.Faults.{Counted};
ghost use Rattle.flow_edges.specs.Streams.{streams};
ghost use Rattle.match_input.specs.Reading.{BundleOf};
ghost use Rattle.match_run.specs.Reading.{HasRead, IsBundleReading};
ghost use Rattle.match_run.specs.Watching.{AnswersWatch};

use crate::{WatchEnd, Watcher, next_bundle};
use flow_edges::{Sink, Source};
use match_input::Reader;

/// Follows an input from the current position of the reader: the watcher sees each bundle in turn,
/// and writes its text before more is read than the bundle's line. Ends with the input, at the
/// first refused line, or where the watcher stops.
pub fn follow<W: Watcher, I: Source, O: Sink>(
    reader: &mut Reader,
    watcher: &mut W,
    input: &mut I,
    output: &mut O,
) -> WatchEnd<W::Stop>
    requires reads { IsBundleReading reader.old (I.left input.old) (I.began input.old) }
    requires ready { W.ready watcher.old }
    // The watcher and the reader agree on how far the input was read.
    requires seen { W.seen watcher.old ≡ reader.old.observations }
    requires last { W.last watcher.old ≡ reader.old.last }
    ensures end { (first : Option (List ℕ)) (earlier : List BundleOf)
        → HasRead first reader.old (I.left input.old) (I.began input.old) earlier
        → AnswersWatch W.sees W.stops W.begins first earlier watcher.old watcher.new
        (O.written output.old)
        (streams (I.left input.new) (I.began input.new) (O.written output.new)) result }
    ensures input { Counted (result ≡ WatchEnd.ReadFault) (I.faults input.old)
        (I.faults input.new) }
    ensures output { Counted (result ≡ WatchEnd.WriteFault) (O.faults output.old)
        (O.faults output.new) }
{
    'bundles: loop {
        let batch = match next_bundle(reader, input) {
            Ok(Some(batch)) => batch,
            Ok(None) => return WatchEnd::Done,
            Err(end) => return WatchEnd::from(end),
        };
        match watcher.see(&batch, output) {
            Ok(()) => {}
            Err(end) => return WatchEnd::from(end),
        }
    }
}
