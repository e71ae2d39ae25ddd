//! Content-Length values (RFC 9110, section 8.6): one to 18 decimal digits, so that no arithmetic
//! overflows.

ghost use Rattle.std.specs.Prelude.{◌≡◌, ◌<◌, ◌≤◌, ◌^◌, true, if◌then◌else◌, Some, None, length};
ghost use Rattle.std.specs.Prelude.{map, IfSome};
ghost use Rattle.std.specs.List.{list_all};
ghost use Rattle.std.specs.Char.{is_ascii_digit};
ghost use Rattle.std.specs.Str.Parse.{digits_value};
ghost use Rattle.http_messages.specs.Fields.{is_length, length_of, first_length, states};

/// The maximum number of digits of a length.
const MAX_DIGITS: usize = 18;

/// The value of a Content-Length, if it is well-formed.
pub(crate) fn read_length(value: &[u8]) -> Option<u64>
    ensures number { result ≡ (if is_length value.now then Some (length_of value.now) else None) }
    ensures small { IfSome result (λ number. number < 10 ^ 18) }
{
    if value.is_empty() || value.len() > MAX_DIGITS || !are_digits(value) {
        return None;
    }
    Some(number_of(value))
}

/// The value of the first length, or 0 if there is none or it is malformed.
pub fn first_length(values: &[&[u8]]) -> u64
    ensures number { result ≡ first_length (map (λ value. value.now) values.now) }
    ensures small { result < 10 ^ 18 }
{
    match values.first() {
        Some(value) => read_length(value).unwrap_or(0),
        None => 0,
    }
}

/// Whether each value is a well-formed length equal to `number`.
pub fn all_state(values: &[&[u8]], number: u64) -> bool
    ensures { result ≡ list_all (λ value. states number value.now) values.now }
{
    values.iter().all(|value| states(value, number))
}

/// Whether the value is a well-formed length equal to `number`.
fn states(value: &[u8], number: u64) -> bool
    ensures { result ≡ states number value.now }
{
    match read_length(value) {
        Some(stated) => stated == number,
        None => false,
    }
}

/// Whether each byte is a digit.
fn are_digits(bytes: &[u8]) -> bool
    ensures { result ≡ list_all is_ascii_digit bytes.now }
{
    bytes.iter().all(|byte| byte.is_ascii_digit())
}

/// The number that at most 18 decimal digits represent.
fn number_of(digits: &[u8]) -> u64
    requires digits { list_all is_ascii_digit digits.now ≡ true }
    requires few { length digits.now ≤ MAX_DIGITS }
    ensures number { result ≡ digits_value 10 digits.now }
    ensures small { result < 10 ^ 18 }
{
    let mut number = 0;
    for digit in digits {
        number = 10 * number + u64::from(*digit - b'0');
    }
    number
}
