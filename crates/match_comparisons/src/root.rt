ghost use Rattle.std.specs.Prelude.{◌≡◌, ◌↔◌, IsTrue, Some, IfSome, option_map, codes};
ghost use Rattle.flow_values.specs.Answers.{FindsExactly};
ghost use Rattle.stix_json.specs.DataOf.{data_of};
ghost use Rattle.stix_json.specs.Ordered.{IsOrdered};
ghost use Rattle.stix_json.specs.Properties.{property_text};
ghost use Rattle.stix_bundles.specs.Objects.{data_in};
ghost use Rattle.match_comparisons.specs.Selection.{IsRoot};

use crate::object::object_at;
use stix_bundles::Bundle;
use stix_json::{Json, get_ordered, text_of};

/// The object at this position, where it has this type. Takes no memory.
pub fn root_of<'a>(bundle: &'a Bundle, root: u32, kind: &str) -> Option<&'a Json>
    ensures found { FindsExactly (IsRoot (data_in bundle.now) root kind.now)
        (option_map (λ tree. data_of tree.now) result) }
    ensures ordered { IfSome result (λ tree. IsOrdered (data_of tree.now)) }
{
    let object = object_at(bundle, root)?;
    if is_typed(object, kind) {
        Some(object)
    } else {
        None
    }
}

/// Whether an object has this type.
fn is_typed(object: &Json, kind: &str) -> bool
    requires { IsOrdered (data_of object.now) }
    ensures { IsTrue result ↔ (property_text (codes "type") (data_of object.now) ≡ Some kind.now) }
{
    match get_ordered(object, "type") {
        Some(value) => text_of(value) == Some(kind),
        None => false,
    }
}
