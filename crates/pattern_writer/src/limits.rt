ghost use Rattle.std.specs.Prelude.{◌≡◌, OnOk};
ghost use Rattle.pattern_types.specs.declared.limit.Limit.{Limit};
ghost use Rattle.pattern_writer.specs.Parts.{AppendsText};
ghost use Rattle.pattern_writer.specs.Limit.{IsLimitText};

use crate::constants::write_time;
use flow_values::{NoMemory, Text};
use std::alloc::Global;
use stix_times::Instant;

/// Writes `WITHIN x SECONDS`.
pub(crate) fn write_seconds(seconds: u32, out: &mut Text) -> Result<(), NoMemory>
    ensures { OnOk result (AppendsText (IsLimitText (Limit.Within seconds)) out.old out.new) }
{
    out.push("WITHIN ")?;
    out.push(itoa::Buffer::new().format(seconds))?;
    out.push(" SECONDS")
}

/// Writes `REPEATS n TIMES`.
pub(crate) fn write_times(times: u32, out: &mut Text) -> Result<(), NoMemory>
    ensures { OnOk result (AppendsText (IsLimitText (Limit.Repeats times)) out.old out.new) }
{
    out.push("REPEATS ")?;
    out.push(itoa::Buffer::new().format(times))?;
    out.push(" TIMES")
}

/// Writes `START .. STOP ..`.
pub(crate) fn write_span(begins: Instant, ends: Instant, out: &mut Text) -> Result<(), NoMemory>
    ensures { OnOk result (AppendsText (IsLimitText (Limit.Between begins ends)) out.old out.new) }
{
    out.push("START ")?;
    write_time(begins, out)?;
    out.push(" STOP ")?;
    write_time(ends, out)
}
