ghost use Rattle.std.specs.Prelude.{◌≡◌, None, Some, Option, IfSome, option_map, codes};
ghost use Rattle.serde_json.specs.Data.{Data};
ghost use Rattle.stix_json.specs.DataOf.{data_of};
ghost use Rattle.stix_json.specs.Ordered.{IsOrdered};
ghost use Rattle.stix_json.specs.Properties.{property_text};
ghost use Rattle.stix_bundles.specs.Objects.{data_in};
ghost use Rattle.match_comparisons.specs.Selection.{StepReaches, Reaches};
ghost use Rattle.hunt_index.specs.Definite.{IsPlain, ArePlain};

use match_comparisons::{name_after, selected};
use pattern_types::Step;
use stix_bundles::Bundle;
use stix_json::{Json, get_ordered, text_of};

/// The value at the end of a path without `[*]`: there is at most one.
pub(crate) fn value_at_path<'a>(
    bundle: &'a Bundle,
    object: &'a Json,
    steps: &[Step],
) -> Option<&'a Json>
    requires { IsOrdered (data_of object.now) }
    ensures all { (value : Data) → ArePlain steps.now
        → Reaches (data_in bundle.now) None steps.now (data_of object.now) value
        → option_map (λ tree. data_of tree.now) result ≡ Some value }
    ensures reached { IfSome result
        (λ tree. Reaches (data_in bundle.now) None steps.now (data_of object.now)
        (data_of tree.now)) }
{
    let mut last = None;
    let mut value = object;
    for step in steps {
        let Some(next) = next_value(bundle, last, step, value) else {
            return None;
        };
        last = name_after(last, step);
        value = next;
    }
    Some(value)
}

/// The value after one such step.
fn next_value<'a>(
    bundle: &'a Bundle,
    last: Option<&str>,
    step: &Step,
    value: &'a Json,
) -> Option<&'a Json>
    requires { IsOrdered (data_of value.now) }
    ensures next { (next : Data) → IsPlain step.now
        → StepReaches (data_in bundle.now) (option_map (λ name. name.now) last.entry) step.now
        (data_of value.now) next
        → option_map (λ tree. data_of tree.now) result ≡ Some next }
    ensures reached { IfSome result
        (λ tree. StepReaches (data_in bundle.now) (option_map (λ name. name.now) last.entry)
        step.now (data_of value.now) (data_of tree.now)) }
    ensures ordered { IfSome result (λ tree. IsOrdered (data_of tree.now)) }
{
    selected(bundle, last, step, value).first()
}

/// The type of an object.
pub(crate) fn kind_of(object: &Json) -> Option<&str>
    requires { IsOrdered (data_of object.now) }
    ensures { option_map (λ kind. kind.now) result
        ≡ property_text (codes "type") (data_of object.now) }
{
    match get_ordered(object, "type") {
        Some(value) => text_of(value),
        None => None,
    }
}
