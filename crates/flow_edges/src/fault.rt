ghost use Rattle.std.specs.Prelude.{◌≡◌, ◌≤◌};
ghost use Rattle.flow_edges.specs.Faults.{counted};

use flow_values::Fault;

/// Adds one to an object's count of faults, up to 2^64 - 1, and returns the `Fault`.
pub fn counted_fault(faults: &mut u64) -> Fault
    ensures counted { faults.new ≡ counted faults.old }
    ensures later { faults.old ≤ faults.new }
{
    *faults = faults.saturating_add(1);
    Fault
}
