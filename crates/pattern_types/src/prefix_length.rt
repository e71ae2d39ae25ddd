//! Parses the prefix length of a block.
ghost use Rattle.std.specs.Prelude.{◌≡◌, ℕ, ◌≤◌, ◌↔◌, IfSome, IsTrue};
ghost use Rattle.pattern_types.specs.PrefixLength.{BeginsAsDecimal, IsDecimalAtMost};
ghost use Rattle.pattern_types.specs.PrefixLength.{IsPrefixLength};

/// The prefix length, or all bits without a text. `None` if the text isn't a number of at most
/// `width`.
pub(crate) fn read_length(text: Option<&str>, width: u8) -> Option<u8>
    ensures exact { (bits : ℕ) → (result ≡ Some bits) ↔ IsPrefixLength width text.entry bits }
    ensures valid { IfSome result (λ bits. bits ≤ width) }
{
    match text {
        Some(digits) => read_decimal(digits, width),
        None => Some(width),
    }
}

/// The decimal number, if it is at most `most` and has no sign and no leading zero.
fn read_decimal(digits: &str, most: u8) -> Option<u8>
    ensures exact { (number : ℕ) → (result ≡ Some number) ↔ IsDecimalAtMost most digits.now number }
    ensures valid { IfSome result (λ number. number ≤ most) }
{
    if !begins_as_decimal(digits.as_bytes()) {
        return None;
    }
    let Ok(number) = digits.parse() else {
        return None;
    };
    if number <= most { Some(number) } else { None }
}

/// Whether the text begins with a digit, and has no leading zero before other bytes.
fn begins_as_decimal(digits: &[u8]) -> bool
    ensures { IsTrue result ↔ BeginsAsDecimal digits.now }
{
    match digits.first() {
        Some(first) => *first != b'+' && (*first != b'0' || digits.len() == 1),
        None => false,
    }
}
