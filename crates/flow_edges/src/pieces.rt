ghost use Rattle.std.specs.Prelude.{◌≡◌, OnErr, IsErr};
ghost use Rattle.flow_edges.specs.Faults.{Counted};
ghost use Rattle.flow_edges.specs.Flow.{WritesWhole, WritesPart, joined_slices};

use crate::{Sink, write_whole};
use flow_values::Fault;

/// Writes all of the slices, in order. After a `Fault`, a prefix of their concatenation was
/// written. Allocates nothing.
pub fn write_all_vectored<S: Sink>(sink: &mut S, pieces: &[&[u8]]) -> Result<(), Fault>
    ensures text { WritesWhole (joined_slices pieces.now) (S.written sink.old)
        (S.written sink.new) result }
    ensures part { OnErr result
        (WritesPart (joined_slices pieces.now) (S.written sink.old) (S.written sink.new)) }
    ensures causes { Counted (IsErr result) (S.faults sink.old) (S.faults sink.new) }
    ensures unread { S.other sink.new ≡ S.other sink.old }
{
    for piece in pieces {
        write_whole(sink, piece)?;
    }
    Ok(())
}
