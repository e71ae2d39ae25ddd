ghost use Rattle.std.specs.Prelude.{◌≡◌, ℕ, List, Option, OnOk, IsErr};
ghost use Rattle.flow_edges.specs.Faults.{Counted};

use crate::Source;
use flow_values::Fault;

/// Files opened by name, one at a time. As a `Source`, it reads the file that was opened last. Its
/// count of faults covers both opening and reading.
pub trait Files: Source {
    /// The bytes of the file of each name, if they are observable.
    ghost contents: { Self → List ℕ → Option (List ℕ) };

    /// Opens the file of this name at its first byte, and closes the previous one. A `Fault` is
    /// counted.
    fn open(&mut self, name: &str) -> Result<(), Fault>
        ensures opened { OnOk result (Self.left self.new ≡ contents self.old name.now) }
        ensures causes { Counted (IsErr result) (Self.faults self.old) (Self.faults self.new) };
}
