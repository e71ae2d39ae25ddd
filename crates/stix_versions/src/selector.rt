//! Selectors of granular markings: parsed by splitting at dots, and resolved part by part from the
//! object down.

ghost use Rattle.std.specs.Prelude.{◌≡◌, ◌↔◌, List, IsTrue, option_map};
ghost use Rattle.stix_json.specs.DataOf.{data_of};
ghost use Rattle.stix_json.specs.Ordered.{IsOrdered};
ghost use Rattle.stix_versions.specs.Selector.{SelectorPart, IsSelector, value_at};
ghost use Rattle.stix_versions.specs.inner.Paths.{IsSelectorPath};

use crate::part::{chosen, is_part};
use stix_json::Json;

/// Whether the text is a selector (STIX 2.1, section 7.2.3.1).
pub(crate) fn is_selector(text: &str) -> bool
    ensures { IsTrue result ↔ ((parts : List SelectorPart) × IsSelector text.now parts) }
{
    !text.starts_with('[') && is_path(text)
}

/// Whether the text is one or more parts joined by dots.
fn is_path(text: &str) -> bool
    ensures { IsTrue result ↔ ((parts : List SelectorPart) × IsSelectorPath text.now parts) }
{
    let mut rest = text;
    while let Some((part, after)) = rest.split_once('.') {
        if !is_part(part) {
            return false;
        }
        rest = after;
    }
    is_part(rest)
}

/// The value that a selector selects in an object.
pub(crate) fn selected<'a>(text: &str, object: &'a Json) -> Option<&'a Json>
    requires { IsOrdered (data_of object.now) }
    ensures { (parts : List SelectorPart) → IsSelectorPath text.now parts
        → option_map (λ value. data_of value.now) result ≡ value_at parts (data_of object.now) }
{
    let mut rest = text;
    let mut here = object;
    while let Some((part, after)) = rest.split_once('.') {
        here = chosen(part, here)?;
        rest = after;
    }
    chosen(rest, here)
}
