ghost use Rattle.std.specs.Prelude.{◌++◌, codes, IsErr};
ghost use Rattle.flow_edges.specs.Faults.{Counted};
ghost use Rattle.flow_edges.specs.Flow.{WritesWhole};
ghost use Rattle.command_reasons.specs.Reasons.{bad_row_reason};

use flow_edges::{Sink, write_all_vectored};
use flow_values::Fault;
use itoa::Buffer;

/// Writes after which date a stored row is bad, as `store refused: row after 7` and a line feed.
pub fn write_bad_row<S: Sink>(after: u64, reasons: &mut S) -> Result<(), Fault>
    ensures text { WritesWhole (bad_row_reason after) (S.written reasons.old)
        (S.written reasons.new) result }
    ensures causes { Counted (IsErr result) (S.faults reasons.old) (S.faults reasons.new) }
{
    let mut buffer = Buffer::new();
    let after = buffer.format(after);
    write_date(after, reasons)
}

/// Writes the message with the formatted date.
fn write_date<S: Sink>(after: &str, reasons: &mut S) -> Result<(), Fault>
    ensures text { WritesWhole (codes "store refused: row after " ++ (after.now ++ codes "\n"))
        (S.written reasons.old) (S.written reasons.new) result }
    ensures causes { Counted (IsErr result) (S.faults reasons.old) (S.faults reasons.new) }
{
    write_all_vectored(
        reasons,
        &[b"store refused: row after ", after.as_bytes(), b"\n"],
    )
}
