ghost use Rattle.std.specs.Prelude.{◌≡◌, ◌≤◌, IfOk, Some, pos, ◌*◌};
ghost use Rattle.stix_times.specs.Instant.{IsInstant};
ghost use Rattle.stix_times.specs.Writing.{IsTextOfDigits, IsWhole};
ghost use Rattle.taxii_bodies.specs.Times.{IsDateText, IsStatedText, IsVersionText, IsWritable};
ghost use Rattle.taxii_bodies.specs.Times.{version_instant};

use flow_values::{NoMemory, Text};
use std::alloc::Global;
use stix_times::{Instant, from_micros, from_nanos, nanos, write_micros, write_millis};
use taxii_rows::{LAST_DATE, StoredRow};

const NANOS_PER_MICRO: i128 = 1000;

const NANOS_PER_MILLI: i128 = 1_000_000;

/// A date as a timestamp with six fractional digits.
pub(crate) fn date_text(alloc: Global, date: u64) -> Result<Text, NoMemory>
    requires { date ≤ LAST_DATE }
    ensures { IfOk result (IsDateText date) }
{
    micros_text(alloc, from_micros(date).unwrap())
}

/// A row's version as a timestamp.
pub(crate) fn version_text(alloc: Global, row: &StoredRow) -> Result<Text, NoMemory>
    requires { IsWritable row.now }
    ensures { IfOk result (IsVersionText row.now) }
{
    let instant = version_instant(row);
    if row.dated {
        stated_text(alloc, instant)
    } else {
        micros_text(alloc, instant)
    }
}

/// A row's version as an instant.
fn version_instant(row: &StoredRow) -> Instant
    requires { IsInstant (version_instant row.now) }
    ensures instant { result ≡ version_instant row.now }
    ensures whole { IsWhole 1000 result }
{
    from_nanos(i128::from(row.version) * NANOS_PER_MICRO).unwrap()
}

/// An object's version as a timestamp, with three fractional digits if they suffice, else six.
pub(crate) fn stated_text(alloc: Global, instant: Instant) -> Result<Text, NoMemory>
    requires { IsWhole 1000 instant }
    ensures { IfOk result (IsStatedText instant) }
{
    if nanos(instant) % NANOS_PER_MILLI == 0 {
        millis_text(alloc, instant)
    } else {
        micros_text(alloc, instant)
    }
}

fn millis_text(alloc: Global, instant: Instant) -> Result<Text, NoMemory>
    requires { IsWhole 1_000_000 instant }
    ensures { IfOk result (λ text. IsTextOfDigits 3 text instant) }
{
    let mut buffer = [0; 32];
    let length = write_millis(instant, &mut buffer);
    let text = std::str::from_utf8(&buffer[..length]).unwrap();
    Text::from_text(alloc, text)
}

fn micros_text(alloc: Global, instant: Instant) -> Result<Text, NoMemory>
    requires { IsWhole 1000 instant }
    ensures { IfOk result (λ text. IsTextOfDigits 6 text instant) }
{
    let mut buffer = [0; 32];
    let length = write_micros(instant, &mut buffer);
    let text = std::str::from_utf8(&buffer[..length]).unwrap();
    Text::from_text(alloc, text)
}
