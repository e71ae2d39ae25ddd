ghost use Rattle.std.specs.Prelude.{IsErr};
ghost use Rattle.flow_edges.specs.Faults.{Counted};
ghost use Rattle.flow_edges.specs.Flow.{WritesWhole};
ghost use Rattle.command_reasons.specs.Reasons.{store_fault_reason};

use flow_edges::{Sink, write_all_vectored};
use flow_values::Fault;

/// Writes why a store failed, as `store fault: it is no database` and a line feed. Allocates
/// nothing.
pub fn write_store_fault<S: Sink>(cause: &str, reasons: &mut S) -> Result<(), Fault>
    ensures text { WritesWhole (store_fault_reason cause.now) (S.written reasons.old)
        (S.written reasons.new) result }
    ensures causes { Counted (IsErr result) (S.faults reasons.old) (S.faults reasons.new) }
{
    write_all_vectored(reasons, &[b"store fault: ", cause.as_bytes(), b"\n"])
}
