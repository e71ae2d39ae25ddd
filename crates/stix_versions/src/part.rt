ghost use Rattle.std.specs.Prelude.{◌≡◌, ◌≢◌, ◌↔◌, ℕ, List, IsTrue, IfSome, IfNone, option_map};
ghost use Rattle.std.specs.Prelude.{slice_get, All};
ghost use Rattle.std.specs.Char.{IsAsciiDigit};
ghost use Rattle.std.specs.Str.Parse.{IsNumeral, digits_value};
ghost use Rattle.serde_json.specs.Find.{at as at_place};
ghost use Rattle.stix_json.specs.DataOf.{data_of};
ghost use Rattle.stix_json.specs.Ordered.{IsOrdered};
ghost use Rattle.stix_versions.specs.Selector.{SelectorPart, IsNameCharacter, IsName, IsIndex};
ghost use Rattle.stix_versions.specs.Selector.{in_brackets};
ghost use Rattle.stix_versions.specs.Selector.{selected_value as chosen_by};
ghost use Rattle.stix_versions.specs.inner.Paths.{IsSelectorPartText};

use stix_json::laws::ordered_parts;
use stix_json::{Json, get_ordered};

/// Whether the text is one part of a selector.
pub(crate) fn is_part(text: &str) -> bool
    ensures { IsTrue result ↔ ((part : SelectorPart) × IsSelectorPartText text.now part) }
{
    match bracketed(text) {
        Some(digits) => is_index(digits),
        None => is_name(text),
    }
}

/// The value that a part selects in a value.
pub(crate) fn chosen<'a>(text: &str, value: &'a Json) -> Option<&'a Json>
    requires { IsOrdered (data_of value.now) }
    ensures value { (part : SelectorPart) → IsSelectorPartText text.now part
        → option_map (λ inner. data_of inner.now) result ≡ chosen_by part (data_of value.now) }
    ensures ordered { IfSome result (λ inner. IsOrdered (data_of inner.now)) }
{
    match bracketed(text) {
        Some(digits) => item_at(digits, value),
        None => get_ordered(value, text),
    }
}

/// The text between the brackets.
fn bracketed(text: &str) -> Option<&str>
    ensures some { IfSome result (λ inner. text.now ≡ in_brackets inner.now) }
    ensures none { IfNone result ((inner : List ℕ) → text.now ≢ in_brackets inner) }
{
    text.strip_prefix('[')?.strip_suffix(']')
}

/// Whether the text is an index: digits without leading zeros.
fn is_index(text: &str) -> bool
    ensures { IsTrue result ↔ IsIndex text.now }
{
    text == "0" || (!text.starts_with('0') && is_numeral(text))
}

fn is_numeral(text: &str) -> bool
    ensures { IsTrue result ↔ IsNumeral 10 text.now }
{
    !text.is_empty() && is_all_digits(text)
}

fn is_all_digits(text: &str) -> bool
    ensures { IsTrue result ↔ All IsAsciiDigit text.now }
{
    text.as_bytes().iter().all(|byte| byte.is_ascii_digit())
}

/// Whether the text is the name of a property.
fn is_name(text: &str) -> bool
    ensures { IsTrue result ↔ IsName text.now }
{
    !text.is_empty() && text.as_bytes().iter().all(|byte| is_name_character(*byte))
}

fn is_name_character(byte: u8) -> bool
    ensures { IsTrue result ↔ IsNameCharacter byte }
{
    matches!(byte, b'a'..=b'z' | b'0'..=b'9' | b'_' | b'-')
}

/// The item of a list at the index written by the digits. `None` if the value isn't a list, or is
/// too short.
fn item_at<'a>(digits: &str, value: &'a Json) -> Option<&'a Json>
    requires { IsOrdered (data_of value.now) }
    ensures value { IsNumeral 10 digits.now
        → option_map (λ item. data_of item.now) result
        ≡ at_place (digits_value 10 digits.now) (data_of value.now) }
    ensures ordered { IfSome result (λ item. IsOrdered (data_of item.now)) }
{
    ordered_parts();
    match value {
        Json::Array(items) => numbered(digits, items.as_slice()),
        Json::Bool(_) | Json::Integer(_) | Json::String(_) | Json::Object(_) => None,
    }
}

/// The item at the index written by the digits.
fn numbered<'a>(digits: &str, items: &'a [Json]) -> Option<&'a Json>
    requires { All (λ item. IsOrdered (data_of item)) items.now }
    ensures value { IsNumeral 10 digits.now
        → option_map (λ item. item.now) result ≡ slice_get items.now (digits_value 10 digits.now) }
    ensures ordered { IfSome result (λ item. IsOrdered (data_of item.now)) }
{
    let at: usize = digits.parse().ok()?;
    items.get(at)
}
