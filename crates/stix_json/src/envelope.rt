ghost use Rattle.std.specs.Prelude.{◌≡◌, ◌⊎◌, None, Some, IfOk, IfErr};
ghost use Rattle.serde_json.specs.Data.{Members, object};
ghost use Rattle.stix_json.specs.declared.refusal.JsonRefusal.TheVariants.{NotList};
ghost use Rattle.stix_json.specs.declared.refusal.JsonRefusal.TheVariants.{NoMemory as OutOfMemory};
ghost use Rattle.stix_json.specs.Envelopes.{more_in, next_in, IsEnvelopeOf, HasNoEnvelopeAs};
ghost use Rattle.stix_json.specs.inner.PropertyValue.{HoldsProperties};

use crate::checked::Checked;
use crate::entries::entries_under;
use crate::property_value::{Property, PropertyValue, property_value_under, read_properties};
use crate::{Entry, Json, JsonRefusal};
use flow_values::{Items, Text};
use std::alloc::Global;

/// A page of a collection, as a client reads it: the envelope of TAXII 2.1, section 3.7.
#[derive(Drop)]
pub struct Envelope {
    /// Whether more objects follow this page.
    pub more: bool,
    /// The cursor of the next page. `None` if no more objects follow.
    pub next: Option<Text>,
    /// The objects, each checked on its own.
    pub entries: Items<Entry>,
}

/// The flag `more`, false if absent. `None` if it isn't a boolean.
fn more_of(properties: &[Property]) -> Option<bool>
    ensures { (ms : Members) → HoldsProperties ms properties.now → result ≡ more_in (object ms) }
{
    match property_value_under(properties, "more") {
        None => Some(false),
        Some(PropertyValue::Value(Checked::Good(Json::Bool(more)))) => Some(*more),
        Some(_) => None,
    }
}

/// The text of `next`, if `more` is true. `NotList` if it isn't a text.
fn next_of(alloc: Global, properties: &[Property], more: bool) -> Result<Option<Text>, JsonRefusal>
    ensures ok { IfOk result (λ next. (ms : Members) → HoldsProperties ms properties.now
        → next_in more (object ms) ≡ Some next) }
    ensures err { IfErr result (λ refusal. (refusal ≡ OutOfMemory) ⊎ ((refusal ≡ NotList)
        × ((ms : Members) → HoldsProperties ms properties.now → next_in more (object ms) ≡ None))) }
{
    if !more {
        return Ok(None);
    }
    match property_value_under(properties, "next") {
        Some(PropertyValue::Value(Checked::Good(Json::String(next)))) => {
            Ok(Some(Text::from_text(alloc, next.as_str())?))
        }
        _ => Err(JsonRefusal::NotList),
    }
}

/// Reads an envelope: `objects` as by `read_entries`, `more` (false if absent), and `next` if
/// `more` is true.
///
/// `NotJson` if the bytes aren't JSON. `NotList` if they aren't an object, `objects` isn't a list,
/// `more` isn't a boolean, or `more` is true and `next` isn't a text.
pub fn read_envelope(alloc: Global, bytes: &[u8]) -> Result<Envelope, JsonRefusal>
    ensures ok { IfOk result (λ envelope. IsEnvelopeOf bytes.now envelope) }
    ensures err { IfErr result (λ refusal. HasNoEnvelopeAs bytes.now refusal) }
{
    let properties = read_properties(alloc, bytes)?;
    let Some(more) = more_of(&properties) else {
        return Err(JsonRefusal::NotList);
    };
    let next = next_of(alloc, &properties, more)?;
    let entries = entries_under(alloc, properties, "objects")?;
    Ok(Envelope {
        more,
        next,
        entries,
    })
}
