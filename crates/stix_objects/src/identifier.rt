ghost use Rattle.std.specs.Prelude.{◌≡◌, ◌↔◌, Some, IsTrue, IfSome, option_map, map};
ghost use Rattle.stix_ids.specs.declared.id.Id.{Id};
ghost use Rattle.stix_ids.specs.Identifier.{IsTextOfId};
ghost use Rattle.stix_ids.specs.PartsOf.{id_of};
ghost use Rattle.flow_values.specs.Answers.{FindsExactly};
ghost use Rattle.stix_json.specs.DataOf.{data_of};
ghost use Rattle.stix_objects.specs.Form.{any_reference, reference};
ghost use Rattle.stix_objects.specs.Singles.{NamesOwn, ChecksOwnId, ChecksSingle};
ghost use Rattle.stix_objects.specs.Properties.{HasId};
ghost use Rattle.stix_objects.specs.Conditions.{HasNumber};

use crate::Rule;
use crate::object::Object;
use stix_ids::IdRef;
use stix_ids::laws::one_identifier;
use stix_json::{Json, text_at, text_of};

/// Reads an identifier.
fn identifier_of(text: &str) -> Option<IdRef<'_>>
    ensures some { IfSome result (λ parts. IsTextOfId text.now (id_of parts)) }
    ensures only { (id : Id) → IsTextOfId text.now id → option_map id_of result ≡ Some id }
{
    IdRef::read(text).ok()
}

/// The violation by a value that must be an identifier of any kind.
pub(crate) fn check_any_reference(value: &Json) -> Option<Rule>
    ensures { ChecksSingle any_reference (data_of value.now) result }
{
    let Some(text) = text_of(value) else {
        return Some(Rule::WrongKind);
    };
    match identifier_of(text) {
        Some(_) => None,
        None => Some(Rule::BadId),
    }
}

/// The violation by a value that must be an identifier of one of these kinds.
pub(crate) fn check_reference(kinds: &[&str], value: &Json) -> Option<Rule>
    ensures { ChecksSingle (reference (map (λ kind. kind.now) kinds.now))
        (data_of value.now) result }
{
    let Some(text) = text_of(value) else {
        return Some(Rule::WrongKind);
    };
    let Some(parts) = identifier_of(text) else {
        return Some(Rule::BadId);
    };
    if kinds.contains(&parts.kind) {
        None
    } else {
        Some(Rule::BadReference)
    }
}

/// The violation by the identifier of an object of this type, if the type is known.
pub(crate) fn check_own_id(own: Option<&str>, value: &Json) -> Option<Rule>
    ensures { ChecksOwnId (option_map (λ kind. kind.now) own.entry) (data_of value.now) result }
{
    let Some(text) = text_of(value) else {
        return Some(Rule::WrongKind);
    };
    if names_own(own, text) {
        None
    } else {
        Some(Rule::BadId)
    }
}

fn names_own(own: Option<&str>, text: &str) -> bool
    ensures { IsTrue result ↔ NamesOwn (option_map (λ kind. kind.now) own.entry) text.now }
{
    let Some(parts) = identifier_of(text) else {
        return false;
    };
    match own {
        Some(kind) => parts.kind == kind,
        None => true,
    }
}

/// The identifier of an object, borrowed. `None` if `id` is absent or not an identifier. Allocates
/// nothing.
pub fn object_id(object: &Json) -> Option<IdRef<'_>>
    ensures { FindsExactly (HasId (data_of object.now)) (option_map id_of result) }
{
    identifier_of(text_at(object, "id")?)
}

/// Whether the object has an identifier with this UUID.
pub(crate) fn has_number(object: &Object<'_>, number: u128) -> bool
    ensures { IsTrue result ↔ HasNumber (data_of object.now) number }
{
    one_identifier();
    match object_id(object.json()) {
        Some(parts) => parts.number == number,
        None => false,
    }
}
