//! Orders a value to a constant of its kind (STIX 2.1, section 9.6.1).

ghost use Rattle.std.specs.Prelude.{◌≡◌, ◌↔◌, ℕ, ℤ, List, Option, Some, option_map};
ghost use Rattle.std.specs.Cmp.Lexicographic.{slice_cmp};
ghost use Rattle.std.specs.Ordering.{int_cmp, nat_cmp};
ghost use Rattle.std.specs.declared.cmp.Ordering.{Ordering};
ghost use Rattle.stix_times.specs.Reading.{IsTextOfInstant};
ghost use Rattle.stix_json.specs.DataOf.{data_of};
ghost use Rattle.pattern_types.specs.declared.constant.Constant.TheVariants.{Integer, String};
ghost use Rattle.pattern_types.specs.declared.constant.Constant.TheVariants.{Boolean, Timestamp};
ghost use Rattle.match_comparisons.specs.Tests.{Compares};
ghost use Rattle.match_comparisons.specs.inner.Bytes.{EncodesBytes};

use flow_values::Items;
use pattern_types::Constant;
use std::cmp::Ordering;
use stix_json::{Json, text_of};
use stix_times::{Instant, nanos, read};

/// The order of a value to a constant, given the bytes that the value encodes. None where the kinds
/// differ.
pub(crate) fn compared(
    value: &Json,
    own: &Option<Items<u8>>,
    constant: &Constant,
) -> Option<Ordering>
    ensures { (last : Option (List ℕ)) → EncodesBytes last (data_of value.now) own.now
        → (order : Ordering) → Compares last (data_of value.now) constant.now order
        ↔ (result ≡ Some order) }
{
    match constant {
        Constant::Integer(whole) => compared_whole(value, *whole),
        Constant::String(words) => compared_words(value, words.as_str()),
        Constant::Boolean(truth) => compared_truth(value, *truth),
        Constant::Timestamp(instant) => compared_instant(value, *instant),
        Constant::Hex(bytes) => compared_bytes(own, bytes.as_slice()),
        Constant::Binary(bytes) => compared_bytes(own, bytes.as_slice()),
    }
}

/// The order to an integer.
fn compared_whole(value: &Json, whole: i64) -> Option<Ordering>
    ensures { (last : Option (List ℕ)) (order : Ordering)
        → Compares last (data_of value.now) (Integer whole) order ↔ (result ≡ Some order) }
{
    match value {
        Json::Integer(n) => Some(n.cmp(&whole)),
        Json::Bool(_) | Json::String(_) | Json::Array(_) | Json::Object(_) => None,
    }
}

/// The order to a text, by code point.
fn compared_words(value: &Json, words: &str) -> Option<Ordering>
    ensures { (last : Option (List ℕ)) (order : Ordering)
        → Compares last (data_of value.now) (String words.now) order ↔ (result ≡ Some order) }
{
    match text_of(value) {
        Some(text) => Some(text.cmp(words)),
        None => None,
    }
}

/// The order to a Boolean: false before true.
fn compared_truth(value: &Json, truth: bool) -> Option<Ordering>
    ensures { (last : Option (List ℕ)) (order : Ordering)
        → Compares last (data_of value.now) (Boolean truth) order ↔ (result ≡ Some order) }
{
    match value {
        Json::Bool(b) => Some(b.cmp(&truth)),
        Json::Integer(_) | Json::String(_) | Json::Array(_) | Json::Object(_) => None,
    }
}

/// The order to an instant.
fn compared_instant(value: &Json, instant: Instant) -> Option<Ordering>
    ensures { (last : Option (List ℕ)) (order : Ordering)
        → Compares last (data_of value.now) (Timestamp instant) order ↔ (result ≡ Some order) }
{
    match text_of(value) {
        Some(text) => compared_time(text, instant),
        None => None,
    }
}

/// The order of the instant that a text spells to another. None where it spells none.
fn compared_time(text: &str, instant: Instant) -> Option<Ordering>
    ensures { (order : Ordering) → ((i : ℤ) × IsTextOfInstant text.now i
        × (order ≡ int_cmp i instant))
        ↔ (result ≡ Some order) }
{
    match read(text) {
        Ok(named) => Some(nanos(named).cmp(&nanos(instant))),
        Err(_) => None,
    }
}

/// The order of bytes, lexicographically.
fn compared_bytes(own: &Option<Items<u8>>, bytes: &[u8]) -> Option<Ordering>
    ensures { result ≡ option_map (λ decoded. slice_cmp nat_cmp decoded bytes.now) own.now }
{
    match own {
        Some(decoded) => Some(decoded.as_slice().cmp(bytes)),
        None => None,
    }
}
