ghost use Rattle.std.specs.Prelude.{◌++◌, codes, IsErr};
ghost use Rattle.flow_edges.specs.Faults.{Counted};
ghost use Rattle.flow_edges.specs.Flow.{WritesWhole};
ghost use Rattle.pattern_reader.specs.PatternRefusal.{pattern_refusal_text};

use flow_edges::{Sink, write_all_vectored, write_whole};
use flow_values::Fault;
use itoa::Buffer;
use pattern_reader::PatternRefusal;

/// Writes why a pattern is refused, as `BadToken at 5`. Allocates nothing.
pub(crate) fn write_refusal<S: Sink>(refusal: &PatternRefusal, sink: &mut S) -> Result<(), Fault>
    ensures text { WritesWhole (pattern_refusal_text refusal.now) (S.written sink.old)
        (S.written sink.new) result }
    ensures causes { Counted (IsErr result) (S.faults sink.old) (S.faults sink.new) }
{
    let name = refusal.name();
    match refusal.at() {
        None => write_whole(sink, name.as_bytes()),
        Some(at) => {
            let mut buffer = Buffer::new();
            let place = buffer.format(at);
            write_placed(name, place, sink)
        }
    }
}

/// Writes a name and an offset.
fn write_placed<'a, S: Sink>(name: &'a str, place: &'a str, sink: &mut S) -> Result<(), Fault>
    ensures text { WritesWhole (name.now ++ (codes " at " ++ place.now)) (S.written sink.old)
        (S.written sink.new) result }
    ensures causes { Counted (IsErr result) (S.faults sink.old) (S.faults sink.new) }
{
    write_all_vectored(sink, &[name.as_bytes(), b" at ", place.as_bytes()])
}
