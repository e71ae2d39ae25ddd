//! The texts of times in a sighting.

ghost use Rattle.std.specs.Prelude.{◌≡◌, IfOk};
ghost use Rattle.stix_times.specs.Writing.{IsCanonicalTextOf, IsTextOfDigits, IsWhole};
ghost use Rattle.hunt_report.specs.Sightings.{IsVersionInstantText};

use flow_values::{NoMemory, Text};
use std::alloc::Global;
use stix_times::{Instant, nanos, write, write_micros, write_millis};

const NANOS_PER_MILLI: i128 = 1_000_000;

/// The text of an instant.
pub(crate) fn time_text(alloc: Global, instant: Instant) -> Result<Text, NoMemory>
    ensures { IfOk result (λ text. IsCanonicalTextOf text instant) }
{
    let mut buffer = [0; 32];
    let length = write(instant, &mut buffer);
    text_in(alloc, &buffer[..length])
}

/// The text of a version's instant: three digits of a second where that loses nothing, otherwise
/// six.
pub(crate) fn version_text(alloc: Global, instant: Instant) -> Result<Text, NoMemory>
    requires { IsWhole 1000 instant }
    ensures { IfOk result (IsVersionInstantText instant) }
{
    if nanos(instant) % NANOS_PER_MILLI == 0 {
        millis_text(alloc, instant)
    } else {
        micros_text(alloc, instant)
    }
}

/// The text with three digits of a second.
fn millis_text(alloc: Global, instant: Instant) -> Result<Text, NoMemory>
    requires { IsWhole 1_000_000 instant }
    ensures { IfOk result (λ text. IsTextOfDigits 3 text instant) }
{
    let mut buffer = [0; 32];
    let length = write_millis(instant, &mut buffer);
    text_in(alloc, &buffer[..length])
}

/// The text with six digits of a second.
fn micros_text(alloc: Global, instant: Instant) -> Result<Text, NoMemory>
    requires { IsWhole 1000 instant }
    ensures { IfOk result (λ text. IsTextOfDigits 6 text instant) }
{
    let mut buffer = [0; 32];
    let length = write_micros(instant, &mut buffer);
    text_in(alloc, &buffer[..length])
}

/// The bytes of a time as a text.
fn text_in(alloc: Global, bytes: &[u8]) -> Result<Text, NoMemory>
    ensures { IfOk result (λ text. text ≡ bytes.now) }
{
    match std::str::from_utf8(bytes) {
        Ok(text) => Text::from_text(alloc, text),
        Err(_) => Err(NoMemory),
    }
}
