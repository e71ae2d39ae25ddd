ghost use Rattle.std.specs.Prelude.{◌≡◌, ℕ, ◌≤◌, ◌<◌, List, Option, length, take, IfOk, OnErr};
ghost use Rattle.std.specs.Prelude.{IsErr};
ghost use Rattle.flow_edges.specs.Faults.{Counted};
ghost use Rattle.flow_edges.specs.Flow.{written_with, WritesWhole, WritesPart, SourceSide};
ghost use Rattle.flow_edges.specs.Flow.{no_source};

use flow_values::Fault;

/// Where bytes are written: a file, a terminal, or memory.
pub trait Sink {
    /// The bytes written so far, if they are observable.
    ghost written: { Self → Option (List ℕ) };

    /// The number of calls that failed.
    ghost faults: { Self → ℕ };

    /// The state of the same object as a `Source`, if it is one too.
    ghost other: { Self → SourceSide } = { λ _. no_source };

    /// Writes a prefix of `piece` and returns its length, which is 0 only if `piece` is empty. A
    /// `Fault` means that nothing was written; it is counted, and only a failed call is.
    fn write(&mut self, piece: &[u8]) -> Result<usize, Fault>
        ensures within { IfOk result (λ n. n ≤ length piece.now) }
        ensures written { IfOk result
            (λ n. written self.new ≡ written_with (take n piece.now) (written self.old)) }
        ensures some { IfOk result (λ n. 0 < length piece.now → 0 < n) }
        ensures err { OnErr result (written self.new ≡ written self.old) }
        ensures causes { Counted (IsErr result) (faults self.old) (faults self.new) }
        ensures unread { other self.new ≡ other self.old };
}

/// Writes all of `bytes`, like `std::io::Write::write_all`. After a `Fault`, a prefix was written;
/// nothing is retried. Allocates nothing.
pub fn write_whole<S: Sink>(sink: &mut S, bytes: &[u8]) -> Result<(), Fault>
    ensures text { WritesWhole bytes.now (S.written sink.old) (S.written sink.new) result }
    ensures part { OnErr result (WritesPart bytes.now (S.written sink.old) (S.written sink.new)) }
    // The count of faults increases exactly if this call fails.
    ensures causes { Counted (IsErr result) (S.faults sink.old) (S.faults sink.new) }
    ensures unread { S.other sink.new ≡ S.other sink.old }
{
    let mut rest = bytes;
    while !rest.is_empty() {
        let count = sink.write(rest)?;
        rest = &rest[count..];
    }
    Ok(())
}
