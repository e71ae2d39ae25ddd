ghost use Rattle.std.specs.Prelude.{◌≡◌, ◌≤◌, ◌↔◌, true, IsErr, OnOk, OnErr};
ghost use Rattle.flow_edges.specs.Faults.{counted};
ghost use Rattle.flow_memory.specs.Streams.{is_failing};

use flow_values::{Fault, Items};

/// The call counter of a keeper in memory: the numbers of the calls that fail, starting at 1, and
/// how many calls were made and failed.
#[derive(Drop)]
pub(crate) struct Calls {
    pub(crate) failing: Items<u64>,
    pub(crate) count: u64,
    pub(crate) faults: u64,
}

impl Calls {
    /// Counts a call, and fails if its number is listed.
    pub(crate) fn begin(&mut self) -> Result<(), Fault>
        ensures fails { IsErr result ↔ (is_failing self.old.failing self.old.count ≡ true) }
        ensures count { self.new.count ≡ counted self.old.count }
        ensures quiet { OnOk result (self.new.faults ≡ self.old.faults) }
        ensures later { self.old.faults ≤ self.new.faults }
        ensures faults { OnErr result (self.new.faults ≡ counted self.old.faults) }
        ensures failing { self.new.failing ≡ self.old.failing }
    {
        self.count = self.count.saturating_add(1);
        if self.failing.as_slice().contains(&self.count) {
            self.faults = self.faults.saturating_add(1);
            return Err(Fault);
        }
        Ok(())
    }
}
