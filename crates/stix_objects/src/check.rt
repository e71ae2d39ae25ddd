//! The interpreter of rows: it evaluates one row of the tables on one object.

ghost use Rattle.std.specs.Prelude.{◌≡◌, Some, None, IsTrue, if◌then◌else◌, option_map};
ghost use Rattle.std.specs.Prelude.{option_to_list};
ghost use Rattle.stix_objects.specs.declared.rule.Rule.TheVariants.{NeedsOneOf};
ghost use Rattle.stix_json.specs.DataOf.{data_of};
ghost use Rattle.serde_json.specs.Find.{get as member_of};
ghost use Rattle.stix_objects.specs.Row.{own_id};
ghost use Rattle.stix_objects.specs.Forms.{ChecksValue, ChecksForm};
ghost use Rattle.stix_objects.specs.Rows.{Checks};
ghost use Rattle.stix_objects.specs.inner.Views.{form_view, row_view, row_break_view};

use crate::Rule;
use crate::condition::{hold_all, holds};
use crate::form::Form;
use crate::identifier::check_own_id;
use crate::list::check_form;
use crate::marking::{has_other_colour, lacks_colour, lacks_statement};
use crate::object::Object;
use crate::records::lacks_all;
use crate::row::Row;
use crate::row_break::{ObjectLocation, RowBreak, ValueBreak};
use crate::timestamp::{second_is_earlier, second_is_not_later};

/// A fast path: whether the row is about an absent property that it doesn't require. Most rows of
/// most objects end here.
pub(crate) fn is_trivially_met(row: &Row, object: &Object<'_>) -> bool
    ensures { IsTrue result → Checks (row_view row.now) (data_of object.now) None }
{
    match row {
        Row::Optional(name, _) => object.definitely_lacks(name),
        Row::Required(_, _)
        | Row::RequiredWhere(_, _, _)
        | Row::OwnId
        | Row::Order(_, _, _)
        | Row::StrictOrder(_, _, _)
        | Row::NeedsOneOf(_, _)
        | Row::Excludes(_, _)
        | Row::Statement
        | Row::Colour
        | Row::ColourId => false,
    }
}

/// The violation of a row by an object, if any. It is kept out of the loop over the rows, since few
/// rows reach it.
#[inline(never)]
pub(crate) fn check(row: &Row, object: &Object<'_>) -> Option<RowBreak>
    ensures { Checks (row_view row.now) (data_of object.now) (option_map row_break_view result) }
{
    match row {
        Row::Required(name, form) => check_property(true, name, form, object),
        Row::Optional(name, form) => check_property(false, name, form, object),
        Row::RequiredWhere(name, form, condition) => {
            check_property(holds(condition, object), name, form, object)
        }
        Row::OwnId => check_id(object),
        Row::Order(precision, first, second) => found_where(
            second_is_earlier(object, *precision, first, second),
            RowBreak::at(second, Rule::BadOrder),
        ),
        Row::StrictOrder(precision, first, second) => found_where(
            second_is_not_later(object, *precision, first, second),
            RowBreak::at(second, Rule::BadOrder),
        ),
        Row::NeedsOneOf(at, names) => found_where(lacks_all(object, names), needs_one_of(*at)),
        Row::Excludes(name, conditions) => found_where(
            hold_all(conditions, object),
            RowBreak::at(name, Rule::Excludes),
        ),
        Row::Statement => found_where(
            lacks_statement(object),
            RowBreak {
                rule: Rule::Missing,
                object_location: ObjectLocation::Within("definition", "statement"),
            },
        ),
        Row::Colour => found_where(
            lacks_colour(object),
            RowBreak {
                rule: Rule::BadWord,
                object_location: ObjectLocation::Within("definition", "tlp"),
            },
        ),
        Row::ColourId => found_where(has_other_colour(object), RowBreak::at("id", Rule::BadId)),
    }
}

/// The violation of the form of a property, which is required or optional.
fn check_property(
    required: bool,
    name: &'static str,
    form: &Form,
    object: &Object<'_>,
) -> Option<RowBreak>
    ensures { ChecksValue (IsTrue required) name.now (ChecksForm (form_view form.now))
        (member_of name.now (data_of object.now)) (option_map row_break_view result) }
{
    match object.get(name) {
        Some(value) => match check_form(form, value) {
            Some(value_break) => Some(value_break.in_property(name)),
            None => None,
        },
        None => found_where(required, RowBreak::at(name, Rule::Missing)),
    }
}

/// The violation by an object's identifier, which must be of the object's type.
fn check_id(object: &Object<'_>) -> Option<RowBreak>
    ensures { Checks own_id (data_of object.now) (option_map row_break_view result) }
{
    let Some(id) = object.get("id") else {
        return Some(RowBreak::at("id", Rule::Missing));
    };
    match check_own_id(object.text_at("type"), id) {
        Some(rule) => Some(RowBreak::at("id", rule)),
        None => None,
    }
}

/// The violation, if `broken`.
fn found_where(broken: bool, row_break: RowBreak) -> Option<RowBreak>
    ensures { result ≡ (if broken then Some row_break else None) }
{
    if broken { Some(row_break) } else { None }
}

/// The violation of a row that requires one of several properties: reported at one of them, else at
/// the whole object.
fn needs_one_of(at: Option<&'static str>) -> RowBreak
    ensures { row_break_view result ≡ record {
      rule = NeedsOneOf;
      parts = option_to_list (option_map (λ name. name.now) at.entry);
    } }
{
    match at {
        Some(name) => RowBreak::at(name, Rule::NeedsOneOf),
        None => RowBreak {
            rule: Rule::NeedsOneOf,
            object_location: ObjectLocation::Whole,
        },
    }
}
