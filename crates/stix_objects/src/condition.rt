ghost use Rattle.std.specs.Prelude.{◌≡◌, ◌↔◌, IsTrue, Some, true, false, map};
ghost use Rattle.serde_json.specs.Data.{boolean};
ghost use Rattle.serde_json.specs.Find.{get as member_of};
ghost use Rattle.stix_json.specs.DataOf.{data_of};
ghost use Rattle.stix_objects.specs.Conditions.{MeetsPropertyForm, Holds, HoldAll};
ghost use Rattle.stix_objects.specs.inner.Views.{form_view, condition_view};

use crate::form::Form;
use crate::list::check_form;
use crate::object::Object;
use crate::row::Condition;
use stix_json::Json;

/// Whether an object meets all the conditions.
pub(crate) fn hold_all(conditions: &[Condition], object: &Object<'_>) -> bool
    ensures { IsTrue result ↔ HoldAll (map condition_view conditions.now) (data_of object.now) }
{
    for condition in conditions {
        if !holds(condition, object) {
            return false;
        }
    }
    true
}

/// Whether an object meets the condition.
pub(crate) fn holds(condition: &Condition, object: &Object<'_>) -> bool
    ensures { IsTrue result ↔ Holds (condition_view condition.now) (data_of object.now) }
{
    match condition {
        Condition::IsTrue(name) => is_boolean(object, name, true),
        Condition::IsFalse(name) => is_boolean(object, name, false),
        Condition::Meets(name, form) => meets(object, name, form),
        Condition::Absent(name) => object.get(name).is_none(),
    }
}

/// Whether the property is present and has this boolean value.
fn is_boolean(object: &Object<'_>, name: &str, wanted: bool) -> bool
    ensures { IsTrue result ↔ (member_of name.now (data_of object.now) ≡ Some (boolean wanted)) }
{
    match object.get(name) {
        Some(Json::Bool(truth)) => *truth == wanted,
        Some(Json::Integer(_) | Json::String(_) | Json::Array(_) | Json::Object(_)) | None => false,
    }
}

/// Whether the property is present and has this form.
fn meets(object: &Object<'_>, name: &str, form: &Form) -> bool
    ensures { IsTrue result ↔ MeetsPropertyForm name.now (form_view form.now) (data_of object.now) }
{
    match object.get(name) {
        Some(value) => check_form(form, value).is_none(),
        None => false,
    }
}
