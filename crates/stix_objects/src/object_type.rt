ghost use Rattle.std.specs.Prelude.{◌≡◌, bytes_eq, map, option_map};
ghost use Rattle.std.specs.List.{flat_map};
ghost use Rattle.stix_objects.specs.Types.{type_named as named_type, first_named as first_type};
ghost use Rattle.stix_objects.specs.Types.{group_in as group_of_type, own_rows as rows_of_type};
ghost use Rattle.stix_objects.specs.inner.Views.{row_view, type_view};

use crate::Group;
use crate::row::Row;
use crate::tables::types::type_tables;

/// An object type with its own rows.
#[derive(Clone, Copy)]
pub(crate) struct ObjectType {
    pub(crate) name: &'static str,
    pub(crate) group: Group,
    pub(crate) rows: &'static [Row],
}

impl ObjectType {
    /// Whether the type has this name. Compares the lengths first, since most names differ in
    /// length.
    fn is_named(&self, name: &str) -> bool
        ensures { result ≡ bytes_eq self.now.name.now name.now }
    {
        self.name.len() == name.len() && self.name == name
    }
}

/// The type of this name, if it has its own rows.
pub(crate) fn type_named(name: &str) -> Option<&'static ObjectType>
    ensures { option_map (λ found. type_view found.now) result ≡ named_type name.now }
{
    first_in(&type_tables(), name)
}

/// The first type with the name in some tables.
fn first_in(tables: &[&'static [ObjectType]], name: &str) -> Option<&'static ObjectType>
    ensures { option_map (λ found. type_view found.now) result
        ≡ first_type name.now (flat_map (λ types. map type_view types.now) tables.now) }
{
    for types in tables {
        if let Some(found) = first_named(types, name) {
            return Some(found);
        }
    }
    None
}

/// The first type with the name.
fn first_named(types: &'static [ObjectType], name: &str) -> Option<&'static ObjectType>
    ensures { option_map (λ found. type_view found.now) result
        ≡ first_type name.now (map type_view types.now) }
{
    for object_type in types {
        if object_type.is_named(name) {
            return Some(object_type);
        }
    }
    None
}

/// The group of a type: `Other` without a type.
pub(crate) fn group_in(object_type: Option<&'static ObjectType>) -> Group
    ensures { result ≡ group_of_type (option_map (λ found. type_view found.now) object_type.entry) }
{
    match object_type {
        Some(object_type) => object_type.group,
        None => Group::Other,
    }
}

/// The own rows of a type: none without a type.
pub(crate) fn rows_in(object_type: Option<&'static ObjectType>) -> &'static [Row]
    ensures { map row_view result.now
        ≡ rows_of_type (option_map (λ found. type_view found.now) object_type.entry) }
{
    match object_type {
        Some(object_type) => object_type.rows,
        None => &[],
    }
}
