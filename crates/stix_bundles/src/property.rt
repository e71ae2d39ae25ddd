//! Properties of an ordered object, read by binary search. So a reference to a large object costs
//! a logarithm of its fields.

ghost use Rattle.std.specs.Prelude.{◌≡◌, ◌↔◌, IsTrue, option_map};
ghost use Rattle.flow_values.specs.Answers.{FindsExactly};
ghost use Rattle.stix_ids.specs.PartsOf.{id_of};
ghost use Rattle.stix_json.specs.DataOf.{data_of};
ghost use Rattle.stix_json.specs.Ordered.{IsOrdered};
ghost use Rattle.stix_json.specs.Properties.{property_text};
ghost use Rattle.stix_objects.specs.Properties.{HasId};
ghost use Rattle.stix_bundles.specs.Lookup.{IsModified};
ghost use Rattle.stix_bundles.specs.Observations.{IsObservedData};

use stix_ids::IdRef;
use stix_json::{Json, get_ordered, text_at, text_of};
use stix_objects::laws::one_id;
use stix_times::{Instant, read_millis};

/// The text of a property of an ordered object. Logarithmic in the number of fields.
fn ordered_text_at<'a>(object: &'a Json, name: &str) -> Option<&'a str>
    requires { IsOrdered (data_of object.now) }
    ensures { option_map (λ text. text.now) result ≡ property_text name.now (data_of object.now) }
{
    text_of(get_ordered(object, name)?)
}

/// The identifier of an ordered object, borrowed. Logarithmic in the number of fields.
pub(crate) fn ordered_id(object: &Json) -> Option<IdRef<'_>>
    requires { IsOrdered (data_of object.now) }
    ensures { FindsExactly (HasId (data_of object.now)) (option_map id_of result) }
{
    IdRef::read(ordered_text_at(object, "id")?).ok()
}

/// The `modified` of an ordered object, if it has one. Logarithmic in the number of fields.
pub(crate) fn modified(object: &Json) -> Option<Instant>
    requires { IsOrdered (data_of object.now) }
    ensures { IsModified (data_of object.now) result }
{
    read_millis(ordered_text_at(object, "modified")?).ok()
}

/// Whether an ordered object has this identifier. Logarithmic in the number of fields. Allocates
/// nothing.
pub(crate) fn has_id(object: &Json, id: IdRef<'_>) -> bool
    requires { IsOrdered (data_of object.now) }
    ensures { IsTrue result ↔ HasId (data_of object.now) (id_of id.entry) }
{
    one_id();
    match ordered_id(object) {
        Some(own) => own.number == id.number && own.kind == id.kind,
        None => false,
    }
}

/// Whether an object is an observed-data.
pub(crate) fn is_observed_data(object: &Json) -> bool
    ensures { IsTrue result ↔ IsObservedData (data_of object.now) }
{
    text_at(object, "type") == Some("observed-data")
}
