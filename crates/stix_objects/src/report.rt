ghost use Rattle.std.specs.Prelude.{◌≡◌, [], ◌∷◌, IfOk, OnOk, option_map, option_to_list};
ghost use Rattle.std.specs.Prelude.{option_and_then, map};
ghost use Rattle.stix_json.specs.DataOf.{data_of};
ghost use Rattle.stix_objects.specs.declared.rule.Rule.TheVariants.{NotObject};
ghost use Rattle.stix_objects.specs.BreakAt.{here, break_of};
ghost use Rattle.stix_objects.specs.Breaks.{type_of, AreBreaksBy, AreBreaksOf, rows_for};
ghost use Rattle.stix_objects.specs.Breaks.{applicable};
ghost use Rattle.stix_objects.specs.Types.{group_in as group_of_type, own_rows as rows_of_type};
ghost use Rattle.stix_objects.specs.CommonRows.{common_rows as shared_rows};
ghost use Rattle.stix_objects.specs.inner.Adding.{AddsBreaks, AddsOne, applicable_rows};
ghost use Rattle.stix_objects.specs.inner.Views.{row_view, common_view, type_view, row_break_view};

use crate::check::{check, is_trivially_met};
use crate::object::Object;
use crate::object_type::{ObjectType, group_in, rows_in, type_named};
use crate::row::{CommonRow, Row};
use crate::tables::common::common_rows;
use crate::{Break, Group, Rule};
use flow_values::{Items, NoMemory, Text};
use std::alloc::Global;
use stix_json::{Json, text_at};

/// All violations of a value: at most one for each row of its type, in the order of the rows, with
/// the common rows first. A value that isn't an object has the one violation `NotObject`.
///
/// Linear in the number of fields, since a type has a fixed number of rows. `NoMemory` is the only
/// error.
pub fn breaks(alloc: Global, value: &Json) -> Result<Items<Break>, NoMemory>
    ensures { IfOk result (λ found. AreBreaksOf (data_of value.now) found) }
{
    match value {
        Json::Object(_) => object_breaks(alloc, value),
        Json::Bool(_) | Json::Integer(_) | Json::String(_) | Json::Array(_) => not_object(alloc),
    }
}

/// The violation `NotObject`.
fn not_object(alloc: Global) -> Result<Items<Break>, NoMemory>
    ensures { IfOk result (λ found. found ≡ break_of (here NotObject) ∷ []) }
{
    let mut found = Items::new(alloc);
    found.push(Break {
        rule: Rule::NotObject,
        path: Text::new(alloc),
    })?;
    Ok(found)
}

/// The violations of the rows of an object's type.
fn object_breaks(alloc: Global, object: &Json) -> Result<Items<Break>, NoMemory>
    ensures { IfOk result (λ found. AreBreaksBy (rows_for (type_of (data_of object.now)))
        (data_of object.now) found) }
{
    let object_type = object_type(object);
    let own = rows_in(object_type);
    let object = Object::new(object);
    let mut found = Items::new(alloc);
    add_common(
        alloc,
        common_rows(),
        group_in(object_type),
        own,
        &object,
        &mut found,
    )?;
    add_own(alloc, own, &object, &mut found)?;
    Ok(found)
}

/// The type of an object, if it has its own rows.
fn object_type(object: &Json) -> Option<&'static ObjectType>
    ensures { option_map (λ found. type_view found.now) result ≡ type_of (data_of object.now) }
{
    type_named(text_at(object, "type")?)
}

/// Adds the violations of the common rows that apply to a type, by its group and its own rows.
fn add_common(
    alloc: Global,
    commons: &[CommonRow],
    group: Group,
    own: &[Row],
    object: &Object<'_>,
    found: &mut Items<Break>,
) -> Result<(), NoMemory>
    ensures { OnOk result (AddsBreaks
        (applicable_rows group (map row_view own.now) (map common_view commons.now))
        (data_of object.now) found.old found.new) }
{
    for common in commons {
        add_applicable(alloc, common, group, own, object, found)?;
    }
    Ok(())
}

/// Adds the violation of a common row, if the row applies and is broken.
fn add_applicable(
    alloc: Global,
    common: &CommonRow,
    group: Group,
    own: &[Row],
    object: &Object<'_>,
    found: &mut Items<Break>,
) -> Result<(), NoMemory>
    ensures { OnOk result (AddsBreaks
        (option_to_list (applicable group (map row_view own.now) (common_view common.now)))
        (data_of object.now) found.old found.new) }
{
    if let Some(row) = common.applicable(group, own) {
        add_break(alloc, row, object, found)?;
    }
    Ok(())
}

/// Adds the violations of the rows.
fn add_own(
    alloc: Global,
    rows: &[Row],
    object: &Object<'_>,
    found: &mut Items<Break>,
) -> Result<(), NoMemory>
    ensures { OnOk result (AddsBreaks (map row_view rows.now)
        (data_of object.now) found.old found.new) }
{
    for row in rows {
        add_break(alloc, row, object, found)?;
    }
    Ok(())
}

/// Adds the violation of a row, if any.
fn add_break(
    alloc: Global,
    row: &Row,
    object: &Object<'_>,
    found: &mut Items<Break>,
) -> Result<(), NoMemory>
    ensures { OnOk result (AddsOne (row_view row.now) (data_of object.now) found.old found.new) }
{
    if is_trivially_met(row, object) {
        return Ok(());
    }
    if let Some(row_break) = check(row, object) {
        found.push(row_break.into_break(alloc)?)?;
    }
    Ok(())
}
