ghost use Rattle.std.specs.Prelude.{◌≡◌, ◌↔◌, ◌≤◌, ◌∷◌, [], List, All, IsTrue, IfSome, IfNone};
ghost use Rattle.std.specs.Prelude.{IfOk, Ok, Some, codes, length};
ghost use Rattle.serde_json.specs.Data.{Data};
ghost use Rattle.stix_json.specs.Walk.{path_text, index_part};
ghost use Rattle.stix_json.specs.DataOf.{data_of};
ghost use Rattle.stix_bundles.specs.Objects.{data_in};
ghost use Rattle.stix_bundles.specs.Bundle.{IsObject, IsIdentified, IsListOf, FailsAt, IsOutlined};
ghost use Rattle.stix_bundles.specs.declared.outline.Failure.TheVariants.{NoObject};
ghost use Rattle.stix_bundles.specs.inner.Failures.{failed_parts, FailsInObjects, FailsInMembers};

use flow_values::{NoMemory, Text};
use std::alloc::Global;
use stix_ids::is_of_kind;
use stix_json::{Json, get, text_at};

/// The greatest number of objects of a bundle.
pub const MAX_OBJECTS: usize = 8_388_608;

/// The first requirement of a bundle that a value fails (STIX 2.1, section 8).
#[derive(Clone, Copy, Debug)]
pub(crate) enum Failure {
    NoObject,
    NoType,
    NoId,
    NoList,
    /// The first member of `objects` that isn't an object.
    NoMember(u32),
}

impl Failure {
    /// The path to the value that fails.
    pub(crate) fn path(self, alloc: Global) -> Result<Text, NoMemory>
        ensures path { IfOk result (λ path. path ≡ path_text (failed_parts self)) }
        ensures told { self ≡ NoObject → result ≡ Ok [] }
    {
        match self {
            Failure::NoObject => Ok(Text::new(alloc)),
            Failure::NoType => Text::from_text(alloc, "type"),
            Failure::NoId => Text::from_text(alloc, "id"),
            Failure::NoList => Text::from_text(alloc, "objects"),
            Failure::NoMember(at) => member_path(alloc, at),
        }
    }
}

/// The path to a member of `objects`.
fn member_path(alloc: Global, at: u32) -> Result<Text, NoMemory>
    ensures { IfOk result (λ path. path ≡ path_text (codes "objects" ∷ index_part at ∷ [])) }
{
    let text = format!(in alloc; "objects.[{at}]")?;
    Ok(Text::from_string(text))
}

/// The first requirement of a bundle that a value fails, if any.
pub(crate) fn first_failure(value: &Json) -> Option<Failure>
    ensures some { IfSome result (λ failure. FailsAt (data_of value.now) (failed_parts failure)) }
    ensures told { (¬ IsObject (data_of value.now)) → result ≡ Some NoObject }
    ensures none { IfNone result ((objects : List Data) × IsOutlined (data_of value.now) objects) }
{
    if !is_object(value) {
        return Some(Failure::NoObject);
    }
    if text_at(value, "type") != Some("bundle") {
        return Some(Failure::NoType);
    }
    if !has_bundle_id(value) {
        return Some(Failure::NoId);
    }
    failure_in_objects(get(value, "objects")?)
}

/// Whether the identifier is of the kind `bundle`.
fn has_bundle_id(value: &Json) -> bool
    ensures { IsTrue result ↔ IsIdentified (data_of value.now) }
{
    match text_at(value, "id") {
        Some(text) => is_of_kind(text, "bundle"),
        None => false,
    }
}

/// The failure in the list of objects, if any.
fn failure_in_objects(value: &Json) -> Option<Failure>
    ensures some { IfSome result (FailsInObjects (data_of value.now)) }
    ensures none { IfNone result ((members : List Data) × IsListOf (data_of value.now) members
        × All IsObject members) }
{
    let Json::Array(objects) = value else {
        return Some(Failure::NoList);
    };
    if !is_count(objects.len()) {
        return Some(Failure::NoList);
    }
    first_no_object(objects.as_slice())
}

/// Whether a list of `objects` may have this length.
fn is_count(count: usize) -> bool
    ensures { IsTrue result ↔ ((1 ≤ count) × (count ≤ MAX_OBJECTS)) }
{
    (1..=MAX_OBJECTS).contains(&count)
}

/// The first member that isn't an object, as a failure.
fn first_no_object(objects: &[Json]) -> Option<Failure>
    requires { length objects.now ≤ MAX_OBJECTS }
    ensures some { IfSome result (FailsInMembers (data_in objects.now)) }
    ensures none { IfNone result (All IsObject (data_in objects.now)) }
{
    for at in 0..objects.len() {
        if !is_object(&objects[at]) {
            return Some(Failure::NoMember(at as u32));
        }
    }
    None
}

fn is_object(value: &Json) -> bool
    ensures { IsTrue result ↔ IsObject (data_of value.now) }
{
    matches!(value, Json::Object(_))
}
