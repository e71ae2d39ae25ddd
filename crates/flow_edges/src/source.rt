ghost use Rattle.std.specs.Prelude.{◌≡◌, ℕ, ◌≤◌, ◌<◌, List, Option, None, Some, Ok, length, take};
ghost use Rattle.std.specs.Prelude.{IfOk, IfSome, OnErr, IsErr};
ghost use Rattle.flow_edges.specs.declared.source.TheConstants.{MAX_READ};
ghost use Rattle.flow_edges.specs.Faults.{Counted};
ghost use Rattle.flow_edges.specs.Flow.{left_after, IsNextOf, IsAtEnd, SinkSide, no_sink};

use flow_values::Fault;

/// The greatest length of the buffer of a read.
pub const MAX_READ: usize = 65_536;

/// Where bytes are read: a file, a terminal, or memory.
pub trait Source {
    /// The bytes left to read, if they are observable.
    ghost left: { Self → Option (List ℕ) };

    /// The number of calls that failed.
    ghost faults: { Self → ℕ };

    /// The bytes that were left when the last read began, if they are observable. A contract can
    /// say by these how much of the input had been read when a write took place.
    ghost began: { Self → Option (List ℕ) } = { λ _. None };

    /// The state of the same object as a `Sink`, if it is one too.
    ghost other: { Self → SinkSide } = { λ _. no_sink };

    /// Reads the next bytes into the front of `buffer` and returns how many: 0 only at the end of
    /// the input. A `Fault` means that nothing was read; it is counted, and only a failed call is.
    ///
    /// The buffer has 1 to 65,536 bytes.
    fn read(&mut self, buffer: &mut [u8]) -> Result<usize, Fault>
        requires room { 0 < length buffer.now }
        requires asks { length buffer.now ≤ MAX_READ }
        ensures within { IfOk result (λ n. n ≤ length buffer.old) }
        ensures given { IfOk result (λ n. IsNextOf (take n buffer.new) (left self.old)) }
        ensures rest { IfOk result (λ n. left self.new ≡ left_after n (left self.old)) }
        ensures end { result ≡ Ok 0 → IsAtEnd (left self.old) }
        ensures err { OnErr result (left self.new ≡ left self.old) }
        ensures began { IfSome (began self.new) (λ bytes. left self.old ≡ Some bytes) }
        ensures causes { Counted (IsErr result) (faults self.old) (faults self.new) }
        // A read changes nothing that the object has written.
        ensures unwritten { other self.new ≡ other self.old };
}
