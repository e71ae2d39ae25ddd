ghost use Rattle.std.specs.Prelude.{◌≡◌, None, Some, IfOk, IfErr};
ghost use Rattle.serde_json.specs.Data.{Members, Items as DataItems, object};
ghost use Rattle.stix_json.specs.Entries.{AreEntriesFor, AreListEntriesOf, HasNoEntriesAs};
ghost use Rattle.stix_json.specs.Entries.{list_under};
ghost use Rattle.stix_json.specs.declared.refusal.JsonRefusal.TheVariants.{NotList};
ghost use Rattle.stix_json.specs.inner.PropertyValue.{HoldsProperties};

use crate::property_value::{Property, PropertyValue, read_properties, take_property_value_under};
use crate::{Entry, JsonRefusal};
use flow_values::Items;
use std::alloc::Global;

/// The entries of the list at a property of an object. Each is checked on its own, as by
/// `read_json`: its nesting levels begin at 1, and its paths at the entry. An absent list is empty.
///
/// `NotJson` if the bytes aren't JSON. `NotList` if they aren't an object, or the property isn't a
/// list.
pub fn read_entries(alloc: Global, bytes: &[u8], name: &str) -> Result<Items<Entry>, JsonRefusal>
    ensures ok { IfOk result (λ entries. AreListEntriesOf bytes.now name.now entries) }
    ensures err { IfErr result (λ refusal. HasNoEntriesAs bytes.now name.now refusal) }
{
    let properties = read_properties(alloc, bytes)?;
    entries_under(alloc, properties, name)
}

/// The entries of the list at a property. An absent list is empty; `NotList` for another value.
pub(crate) fn entries_under(
    alloc: Global,
    properties: Vec<Property>,
    name: &str,
) -> Result<Items<Entry>, JsonRefusal>
    ensures ok { IfOk result (λ entries. (ms : Members) → HoldsProperties ms properties.items
        → (list : DataItems) × (list_under name.now (object ms) ≡ Some list)
        × AreEntriesFor list entries) }
    ensures err { IfErr result (λ refusal. (refusal ≡ NotList)
        × ((ms : Members) → HoldsProperties ms properties.items
        → list_under name.now (object ms) ≡ None)) }
{
    match take_property_value_under(properties, name) {
        None => Ok(Items::new(alloc)),
        Some(PropertyValue::List(entries)) => Ok(entries),
        Some(PropertyValue::Value(_)) => Err(JsonRefusal::NotList),
    }
}
