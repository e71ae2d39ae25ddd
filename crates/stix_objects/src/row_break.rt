ghost use Rattle.std.specs.Prelude.{◌≡◌, IfOk};
ghost use Rattle.stix_json.specs.Walk.{path_text, index_part};
ghost use Rattle.stix_objects.specs.BreakAt.{here, break_under, break_of};
ghost use Rattle.stix_objects.specs.inner.Views.{item_break_view, value_break_view};
ghost use Rattle.stix_objects.specs.inner.Views.{object_location_parts, row_break_view};

use crate::{Break, Rule};
use flow_values::{NoMemory, Text};
use std::alloc::Global;

/// A violation in an object of a list: the rule, and the property, if it is in one.
#[derive(Clone, Copy)]
pub(crate) struct ItemBreak {
    pub(crate) rule: Rule,
    pub(crate) part: Option<&'static str>,
}

impl ItemBreak {
    /// The violation as seen from the list.
    pub(crate) fn in_item(self, at: usize) -> ValueBreak
        ensures { value_break_view result ≡ break_under (index_part at) (item_break_view self) }
    {
        let location = match self.part {
            Some(name) => ValueLocation::ItemPart(at, name),
            None => ValueLocation::Item(at),
        };
        ValueBreak {
            rule: self.rule,
            location,
        }
    }
}

/// A location in the value of a property.
#[derive(Clone, Copy)]
pub(crate) enum ValueLocation {
    /// The value itself.
    Here,
    /// The item at this index.
    Item(usize),
    /// A property of the item at this index.
    ItemPart(usize, &'static str),
}

/// A violation in the value of a property.
#[derive(Clone, Copy)]
pub(crate) struct ValueBreak {
    pub(crate) rule: Rule,
    pub(crate) location: ValueLocation,
}

impl ValueBreak {
    /// The value itself breaks the rule.
    pub(crate) fn here(rule: Rule) -> ValueBreak
        ensures { value_break_view result ≡ here rule }
    {
        ValueBreak {
            rule,
            location: ValueLocation::Here,
        }
    }

    /// The violation as seen from the object.
    pub(crate) fn in_property(self, name: &'static str) -> RowBreak
        ensures { row_break_view result ≡ break_under name.now (value_break_view self) }
    {
        RowBreak {
            rule: self.rule,
            object_location: ObjectLocation::Property(name, self.location),
        }
    }
}

/// A location in an object.
#[derive(Clone, Copy)]
pub(crate) enum ObjectLocation {
    /// The whole object.
    Whole,
    /// In this property.
    Property(&'static str, ValueLocation),
    /// A property of the object in a property.
    Within(&'static str, &'static str),
}

impl ObjectLocation {
    /// The path from the object.
    fn path(self, alloc: Global) -> Result<Text, NoMemory>
        ensures { IfOk result (λ path. path ≡ path_text (object_location_parts self)) }
    {
        let path = match self {
            ObjectLocation::Whole => String::new(alloc),
            ObjectLocation::Property(name, ValueLocation::Here) => String::from_str(alloc, name)?,
            ObjectLocation::Property(name, ValueLocation::Item(at)) => format!(in alloc;
                "{name}.[{at}]"
            )?,
            ObjectLocation::Property(name, ValueLocation::ItemPart(at, part)) => {
                format!(in alloc; "{name}.[{at}].{part}")?
            }
            ObjectLocation::Within(outer, inner) => format!(in alloc; "{outer}.{inner}")?,
        };
        Ok(Text::from_string(path))
    }
}

/// A violation in an object.
#[derive(Clone, Copy)]
pub(crate) struct RowBreak {
    pub(crate) rule: Rule,
    pub(crate) object_location: ObjectLocation,
}

impl RowBreak {
    /// The property breaks the rule.
    pub(crate) fn at(name: &'static str, rule: Rule) -> RowBreak
        ensures { row_break_view result ≡ break_under name.now (here rule) }
    {
        ValueBreak::here(rule).in_property(name)
    }

    /// The violation with its path as text.
    #[cold]
    pub(crate) fn into_break(self, alloc: Global) -> Result<Break, NoMemory>
        ensures { IfOk result (λ found. found ≡ break_of (row_break_view self)) }
    {
        let path = self.object_location.path(alloc)?;
        Ok(Break {
            rule: self.rule,
            path,
        })
    }
}
