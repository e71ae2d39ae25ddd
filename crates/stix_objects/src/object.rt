ghost use Rattle.std.specs.Prelude.{◌≡◌, ◌<◌, IsTrue, None, map, option_map};
ghost use Rattle.serde_json.specs.Find.{get as member_of};
ghost use Rattle.stix_json.specs.DataOf.{data_of, field_data, members_of};
ghost use Rattle.stix_json.specs.Properties.{property_text as text_under};
ghost use Rattle.stix_objects.specs.inner.Names.{slot, Covers, AreCovered};

use std::marker::Model;
use stix_json::{Field, Json, get, text_of};

/// The number of slots of the filter.
const SLOTS: usize = 64;

/// An object with a filter over its property names, like a Bloom filter with one hash function.
/// Most rows are about absent properties; the filter rules these out without a scan of the fields.
#[derive(Drop)]
pub(crate) struct Object<'a> {
    json: &'a Json,
    /// For each slot, whether some name of the object has it.
    taken: [bool; SLOTS],
}

impl<'a> Model for Object<'a> {
    ghost use Rattle.stix_json.specs.DataOf.{data_of};
    ghost use Rattle.std.specs.Coded.{codes};
    ghost use Rattle.stix_json.specs.declared.value.Json.{Json};
    ghost use Rattle.stix_json.specs.contracts.value.Json as value;
    ghost use Rattle.stix_objects.specs.inner.Names.{Covers};

    ghost Value = { Json };

    ghost coded = { Prim.hlevel (codes, value.the_row.coded) };

    ghost view = { λ object. object.json.now };

    ghost invariant = { λ object. Covers object.taken (data_of object.json.now) };
}

impl<'a> Object<'a> {
    /// The value as an object. Other values have no names.
    pub(crate) fn new(json: &'a Json) -> Object<'a>
        ensures { result ≡ json.now }
    {
        Object {
            json,
            taken: slots_in(json),
        }
    }

    /// The value itself.
    pub(crate) fn json(&self) -> &'a Json
        ensures { result.now ≡ self.now }
    {
        self.json
    }

    /// The value of the property of this name.
    pub(crate) fn get(&self, name: &str) -> Option<&'a Json>
        ensures { option_map (λ value. data_of value.now) result
            ≡ member_of name.now (data_of self.now) }
    {
        if self.definitely_lacks(name) {
            None
        } else {
            get(self.json, name)
        }
    }

    /// Whether the filter proves that the object lacks the property. A false answer says nothing.
    pub(crate) fn definitely_lacks(&self, name: &str) -> bool
        // Sound but not complete: a shared slot only costs a search.
        ensures { IsTrue result → member_of name.now (data_of self.now) ≡ None }
    {
        !self.taken[slot_of(name)]
    }

    /// The text of the property of this name, if it is one.
    pub(crate) fn text_at(&self, name: &str) -> Option<&'a str>
        ensures { option_map (λ text. text.now) result ≡ text_under name.now (data_of self.now) }
    {
        text_of(self.get(name)?)
    }
}

/// The slots of the names of a value.
fn slots_in(json: &Json) -> [bool; SLOTS]
    ensures { Covers result (data_of json.now) }
{
    match json {
        Json::Object(fields) => slots_of(fields.as_slice()),
        Json::Bool(_) | Json::Integer(_) | Json::String(_) | Json::Array(_) => [false; SLOTS],
    }
}

/// The slots of the names of the fields.
fn slots_of(fields: &[Field]) -> [bool; SLOTS]
    ensures { AreCovered result (members_of (map field_data fields.now)) }
{
    let mut taken = [false; SLOTS];
    for field in fields {
        taken[slot_of(field.name.as_str())] = true;
    }
    taken
}

/// The slot of a name: a hash of its first byte and its length, which few property names share.
fn slot_of(name: &str) -> usize
    ensures slot { result ≡ slot name.now }
    ensures within { result < 64 }
{
    match name.as_bytes() {
        [first, ..] => (3 * usize::from(*first) + 7 * (name.len() % SLOTS)) % SLOTS,
        [] => 0,
    }
}
