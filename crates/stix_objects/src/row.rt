ghost use Rattle.std.specs.Prelude.{◌≡◌, option_map, map};
ghost use Rattle.std.specs.List.{list_any};
ghost use Rattle.stix_objects.specs.Breaks.{is_rule_row_of, applicable as applicable_row};
ghost use Rattle.stix_objects.specs.inner.Views.{form_view, row_view, common_view};

use crate::Group;
use crate::form::{Form, Precision};
use crate::groups::Groups;

/// A condition on an object.
#[derive(Clone, Copy)]
pub(crate) enum Condition {
    IsTrue(&'static str),
    IsFalse(&'static str),
    /// The property is present and has this form.
    Meets(&'static str, Form),
    Absent(&'static str),
}

/// One requirement on an object.
#[derive(Clone, Copy)]
pub(crate) enum Row {
    Required(&'static str, Form),
    Optional(&'static str, Form),
    RequiredWhere(&'static str, Form, Condition),
    /// The identifier is of the object's type.
    OwnId,
    /// The second timestamp isn't earlier than the first.
    Order(Precision, &'static str, &'static str),
    /// The second timestamp is later than the first.
    StrictOrder(Precision, &'static str, &'static str),
    /// At least one of the properties is present. The violation is reported at a property, else at
    /// the whole object.
    NeedsOneOf(Option<&'static str>, &'static [&'static str]),
    /// The property must be absent if all conditions hold.
    Excludes(&'static str, &'static [Condition]),
    /// A statement marking has its text.
    Statement,
    /// A TLP marking has one of the four colours.
    Colour,
    /// A TLP marking has the identifier of its colour.
    ColourId,
}

/// A row that several types share.
#[derive(Drop)]
pub(crate) enum CommonRow {
    /// It applies to these groups.
    For(Groups, Row),
    /// It applies to these groups, unless the type's own rows name the property.
    UnlessOwn(Groups, &'static str, Row),
}

impl Row {
    /// Whether the row is about the property of this name.
    fn is_of(&self, name: &str) -> bool
        ensures { result ≡ is_rule_row_of name.now (row_view self.now) }
    {
        match self {
            Row::Required(own, _) | Row::Optional(own, _) | Row::RequiredWhere(own, _, _) => {
                *own == name
            }
            Row::OwnId
            | Row::Order(_, _, _)
            | Row::StrictOrder(_, _, _)
            | Row::NeedsOneOf(_, _)
            | Row::Excludes(_, _)
            | Row::Statement
            | Row::Colour
            | Row::ColourId => false,
        }
    }
}

impl CommonRow {
    /// The row, if it applies to a type with this group and these own rows.
    pub(crate) fn applicable(&self, group: Group, own: &[Row]) -> Option<&Row>
        ensures { option_map (λ row. row_view row.now) result
            ≡ applicable_row group (map row_view own.now) (common_view self.now) }
    {
        match self {
            CommonRow::For(groups, row) => {
                if groups.contains(group) {
                    Some(row)
                } else {
                    None
                }
            }
            CommonRow::UnlessOwn(groups, name, row) => {
                if !groups.contains(group) {
                    return None;
                }
                if name_property(own, name) {
                    None
                } else {
                    Some(row)
                }
            }
        }
    }
}

/// Whether one of the rows is about the property of this name.
fn name_property(rows: &[Row], name: &str) -> bool
    ensures { result ≡ list_any (λ row. is_rule_row_of name.now (row_view row)) rows.now }
{
    rows.iter().any(|row| row.is_of(name))
}
