ghost use Rattle.std.specs.Prelude.{◌↔◌, IsTrue, All};
ghost use Rattle.flow_values.specs.Answers.{FindsExactly};
ghost use Rattle.stix_times.specs.Reading as time;
ghost use Rattle.taxii_routes.specs.Value.{IsLimit, IsNextCursor, IsHexDigit, IsPickText};
ghost use Rattle.taxii_routes.specs.Value.{IsTextOfMicros};

use stix_ids::Pick;
use stix_times::{Instant, nanos, read};

/// The maximum number of digits of a limit.
const LIMIT_LENGTH: usize = 18;

/// The number of hexadecimal digits of a cursor.
const NEXT_LENGTH: usize = 16;

const NANOS_PER_MICRO: i128 = 1000;

/// Parses a timestamp.
pub(crate) fn read_instant(value: &str) -> Option<Instant>
    ensures { FindsExactly (time.IsTextOfInstant value.now) result }
{
    read(value).ok()
}

/// Parses a limit: one to 18 decimal digits, not zero.
pub(crate) fn read_limit(value: &str) -> Option<u64>
    ensures { FindsExactly (IsLimit value.now) result }
{
    if value.len() > LIMIT_LENGTH || value.as_bytes().first() == Some(&b'+') {
        return None;
    }
    let limit = value.parse::<u64>().ok()?;
    if limit == 0 {
        return None;
    }
    Some(limit)
}

/// Parses a cursor: 16 lower-case hexadecimal digits.
pub(crate) fn read_next(value: &str) -> Option<u64>
    ensures { FindsExactly (IsNextCursor value.now) result }
{
    if value.len() != NEXT_LENGTH || !has_hex_digits(value) {
        return None;
    }
    u64::from_str_radix(value, 16).ok()
}

/// Whether each byte is a lower-case hexadecimal digit.
fn has_hex_digits(text: &str) -> bool
    ensures { IsTrue result ↔ All IsHexDigit text.now }
{
    text.as_bytes()
        .iter()
        .all(|byte| matches!(*byte, b'0'..=b'9' | b'a'..=b'f'))
}

/// Parses one member of a `match[version]` value.
pub(crate) fn read_pick(text: &str) -> Option<Pick>
    ensures { FindsExactly (IsPickText text.now) result }
{
    match text {
        "last" => Some(Pick::Last),
        "first" => Some(Pick::First),
        "all" => Some(Pick::All),
        _ => Some(Pick::At(read_micros(text)?)),
    }
}

/// Parses a timestamp without a part below one microsecond, as microseconds since 1970.
fn read_micros(text: &str) -> Option<i64>
    ensures { FindsExactly (IsTextOfMicros text.now) result }
{
    let nanos = nanos(read_instant(text)?);
    if nanos % NANOS_PER_MICRO != 0 {
        return None;
    }
    i64::try_from(nanos / NANOS_PER_MICRO).ok()
}
