//! Keys: what a value is looked up by.

ghost use Rattle.std.specs.Prelude.{IfSome};
ghost use Rattle.stix_json.specs.DataOf.{data_of};
ghost use Rattle.hunt_index.specs.inner.Keys.{FitsKey, IsAskedKey};
ghost use Rattle.hunt_index.specs.inner.IndexKeys.{KeyRepresents, AnswersConstant};

use pattern_types::Constant;
use stix_json::Json;

/// The key by which a value is looked up.
#[derive(Clone, Copy, PartialEq, Eq, PartialOrd, Ord)]
pub(crate) enum Key<'p> {
    /// Any value.
    Any,
    /// This integer.
    Integer(i64),
    /// This text.
    Text(&'p str),
}

/// The key of a constant in a comparison. Constants that several values equal have the key `Any`.
pub(crate) fn key_of(constant: &Constant) -> Key<'_>
    ensures stands { KeyRepresents constant.now result }
    ensures answers { AnswersConstant constant.now result }
{
    match constant {
        Constant::Integer(whole) => Key::Integer(*whole),
        Constant::String(text) => Key::Text(text.as_str()),
        Constant::Boolean(_) | Constant::Hex(_) | Constant::Binary(_) | Constant::Timestamp(_) =>
            Key::Any,
    }
}

/// The key of a value besides `Any`. None for values that no key but `Any` matches.
pub(crate) fn key_in(value: &Json) -> Option<Key<'_>>
    ensures asked { (key : Key) → FitsKey key (data_of value.now) → IsAskedKey result key }
    ensures fits { IfSome result (λ key. FitsKey key (data_of value.now)) }
{
    match value {
        Json::Integer(whole) => Some(Key::Integer(*whole)),
        Json::String(text) => Some(Key::Text(text.as_str())),
        Json::Bool(_) | Json::Array(_) | Json::Object(_) => None,
    }
}
