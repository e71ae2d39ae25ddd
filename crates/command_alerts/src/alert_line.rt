ghost use Rattle.std.specs.Prelude.{IfOk};
ghost use Rattle.command_alerts.specs.Alerts.{IsAlertLine};

use flow_values::NoMemory;
use itoa::Buffer;
use std::alloc::Global;
use stix_times::{Instant, write};

/// The line of an alert: the observation's number, and its last time.
pub(crate) fn line_of(alloc: Global, number: u64, last: Instant) -> Result<Vec<u8>, NoMemory>
    ensures { IfOk result (λ line. IsAlertLine number last line.items) }
{
    let mut time = [0; 32];
    let length = write(last, &mut time);
    let mut line = Vec::with_capacity(alloc, 64)?;
    line.extend_from_slice(b"alert ")?;
    line.extend_from_slice(Buffer::new().format(number).as_bytes())?;
    line.extend_from_slice(b" at ")?;
    line.extend_from_slice(&time[..length])?;
    line.extend_from_slice(b"\n")?;
    Ok(line)
}
