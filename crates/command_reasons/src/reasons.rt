ghost use Rattle.std.specs.Prelude.{codes, IsErr};
ghost use Rattle.flow_edges.specs.Faults.{Counted};
ghost use Rattle.flow_edges.specs.Flow.{WritesWhole};
ghost use Rattle.command_reasons.specs.Reasons.{pattern_reason};

use crate::refusal_text::write_refusal;
use flow_edges::{Sink, write_whole};
use flow_values::Fault;
use pattern_reader::PatternRefusal;

/// Writes that memory ran out.
pub fn write_no_memory<S: Sink>(reasons: &mut S) -> Result<(), Fault>
    ensures text { WritesWhole (codes "out of memory\n") (S.written reasons.old)
        (S.written reasons.new) result }
    ensures causes { Counted (IsErr result) (S.faults reasons.old) (S.faults reasons.new) }
{
    write_whole(reasons, b"out of memory\n")
}

/// Writes that the input failed.
pub fn write_read_fault<S: Sink>(reasons: &mut S) -> Result<(), Fault>
    ensures text { WritesWhole (codes "read fault\n") (S.written reasons.old)
        (S.written reasons.new) result }
    ensures causes { Counted (IsErr result) (S.faults reasons.old) (S.faults reasons.new) }
{
    write_whole(reasons, b"read fault\n")
}

/// Writes that the output failed.
pub fn write_write_fault<S: Sink>(reasons: &mut S) -> Result<(), Fault>
    ensures text { WritesWhole (codes "write fault\n") (S.written reasons.old)
        (S.written reasons.new) result }
    ensures causes { Counted (IsErr result) (S.faults reasons.old) (S.faults reasons.new) }
{
    write_whole(reasons, b"write fault\n")
}

/// Writes why a pattern is refused, as `pattern refused: Syntax at 5` and a line feed.
pub fn write_pattern_reason<S: Sink>(refusal: &PatternRefusal, reasons: &mut S) -> Result<(), Fault>
    ensures text { WritesWhole (pattern_reason refusal.now) (S.written reasons.old)
        (S.written reasons.new) result }
    ensures causes { Counted (IsErr result) (S.faults reasons.old) (S.faults reasons.new) }
{
    write_whole(reasons, b"pattern refused: ")?;
    write_refusal(refusal, reasons)?;
    write_whole(reasons, b"\n")
}
