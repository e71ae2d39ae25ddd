ghost use Rattle.std.specs.Prelude.{◌++◌, codes, IsErr};
ghost use Rattle.flow_edges.specs.Faults.{Counted};
ghost use Rattle.flow_edges.specs.Flow.{WritesWhole};
ghost use Rattle.command_reasons.specs.Reasons.{over_limit_reason};

use flow_edges::{Sink, write_all_vectored};
use flow_values::Fault;
use itoa::Buffer;

/// Writes at which observation the limit on retained partial matches was exceeded, as `crowded at
/// observation 7: cap 9` and a line feed.
pub fn write_over_limit<S: Sink>(
    number: u64,
    retained_limit: u64,
    reasons: &mut S,
) -> Result<(), Fault>
    ensures text { WritesWhole (over_limit_reason number retained_limit) (S.written reasons.old)
        (S.written reasons.new) result }
    ensures causes { Counted (IsErr result) (S.faults reasons.old) (S.faults reasons.new) }
{
    let mut buffer = Buffer::new();
    let number = buffer.format(number);
    let mut buffer = Buffer::new();
    let retained_limit = buffer.format(retained_limit);
    write_numbers(number, retained_limit, reasons)
}

/// Writes the message with both numbers formatted.
fn write_numbers<'a, S: Sink>(
    number: &'a str,
    retained_limit: &'a str,
    reasons: &mut S,
) -> Result<(), Fault>
    ensures text { WritesWhole
        (codes "crowded at observation "
        ++ (number.now ++ (codes ": cap " ++ (retained_limit.now ++ codes "\n"))))
        (S.written reasons.old) (S.written reasons.new) result }
    ensures causes { Counted (IsErr result) (S.faults reasons.old) (S.faults reasons.new) }
{
    write_all_vectored(
        reasons,
        &[
            b"crowded at observation ",
            number.as_bytes(),
            b": cap ",
            retained_limit.as_bytes(),
            b"\n",
        ],
    )
}
