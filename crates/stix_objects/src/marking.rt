ghost use Rattle.std.specs.Prelude.{◌≡◌, ◌↔◌, IsTrue, option_map};
ghost use Rattle.stix_json.specs.DataOf.{data_of};
ghost use Rattle.stix_objects.specs.Conditions.{defined_text as text_defined};
ghost use Rattle.stix_objects.specs.Conditions.{defined_colour as colour_defined, number_of_colour};
ghost use Rattle.stix_objects.specs.Conditions.{DefinesObjectOrNone, IsMarking, HasOwnIdOrNone};
ghost use Rattle.stix_objects.specs.Conditions.{HasOtherColour};
ghost use Rattle.stix_objects.specs.Rows.{LacksStatement, LacksColour};

use crate::identifier::{check_own_id, has_number};
use crate::object::Object;
use stix_json::{Json, text_at};

/// Whether the object is a statement marking without its text (STIX 2.1, section 7.2.1.3).
pub(crate) fn lacks_statement(object: &Object<'_>) -> bool
    ensures { IsTrue result ↔ LacksStatement (data_of object.now) }
{
    is_marking(object, "statement") && defined_text(object, "statement").is_none()
}

/// Whether the object is a TLP marking without one of the four colours (section 7.2.1.4).
pub(crate) fn lacks_colour(object: &Object<'_>) -> bool
    ensures { IsTrue result ↔ LacksColour (data_of object.now) }
{
    is_marking(object, "tlp") && defined_colour(object).is_none()
}

/// Whether the object is a TLP marking whose identifier isn't the one fixed for its colour.
pub(crate) fn has_other_colour(object: &Object<'_>) -> bool
    ensures { IsTrue result ↔ HasOtherColour (data_of object.now) }
{
    match defined_colour(object) {
        Some(number) => {
            is_marking(object, "tlp") && has_own_id_or_none(object) && !has_number(object, number)
        }
        None => false,
    }
}

/// Whether the object is a marking of this type, and its definition, if any, is an object.
fn is_marking(object: &Object<'_>, definition_type: &str) -> bool
    ensures { IsTrue result ↔ IsMarking definition_type.now (data_of object.now) }
{
    object.text_at("definition_type") == Some(definition_type) && defines_object_or_none(object)
}

/// Whether the object's definition, if any, is an object.
fn defines_object_or_none(object: &Object<'_>) -> bool
    ensures { IsTrue result ↔ DefinesObjectOrNone (data_of object.now) }
{
    match object.get("definition") {
        Some(Json::Object(_)) | None => true,
        Some(Json::Bool(_) | Json::Integer(_) | Json::String(_) | Json::Array(_)) => false,
    }
}

/// Whether the object's identifier, if any, is of its type.
fn has_own_id_or_none(object: &Object<'_>) -> bool
    ensures { IsTrue result ↔ HasOwnIdOrNone (data_of object.now) }
{
    match object.get("id") {
        Some(id) => check_own_id(object.text_at("type"), id).is_none(),
        None => true,
    }
}

/// A text of the definition.
fn defined_text<'a>(object: &Object<'a>, name: &str) -> Option<&'a str>
    ensures { option_map (λ text. text.now) result ≡ text_defined name.now (data_of object.now) }
{
    text_at(object.get("definition")?, name)
}

/// The UUID of the colour that the marking defines.
fn defined_colour(object: &Object<'_>) -> Option<u128>
    ensures { result ≡ colour_defined (data_of object.now) }
{
    number_of(defined_text(object, "tlp")?)
}

/// The UUID of a colour, fixed by the standard.
fn number_of(colour: &str) -> Option<u128>
    ensures { result ≡ number_of_colour colour.now }
{
    match colour {
        "white" => Some(0x613f2e26_407d_48c7_9eca_b8e91df99dc9),
        "green" => Some(0x34098fce_860f_48ae_8e50_ebd3cc5e41da),
        "amber" => Some(0xf88d31f6_486f_44da_b317_01333bde0b82),
        "red" => Some(0x5e57c739_391a_4eb3_b6be_7d15ca92d5ed),
        _ => None,
    }
}
