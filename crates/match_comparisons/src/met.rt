//! Whether one comparison holds at one object.

ghost use Rattle.std.specs.Prelude.{◌↔◌, None, IfOk, OnOk, IsTrue};
ghost use Rattle.serde_json.specs.Data.{Data};
ghost use Rattle.stix_json.specs.DataOf.{data_of};
ghost use Rattle.stix_json.specs.Ordered.{IsOrdered};
ghost use Rattle.stix_bundles.specs.Objects.{data_in};
ghost use Rattle.pattern_types.specs.Soundness.{IsSoundTest};
ghost use Rattle.match_comparisons.specs.Selection.{Reaches};
ghost use Rattle.match_comparisons.specs.Tests.{TestHolds, NegatedIf, MeetsCheck, last_property};
ghost use Rattle.match_comparisons.specs.inner.Search.{IsSoundSearchMemo, IsSearchOf};

use crate::memo::SearchMemo;
use crate::root_of;
use crate::search::{Search, finds, is_absence};
use flow_values::NoMemory;
use pattern_types::Test;
use std::alloc::Global;
use stix_bundles::Bundle;
use stix_json::Json;

/// Whether a comparison holds at the object at this position: it has the path's type, and the path
/// selects a value that meets the check. For `NOT EXISTS` the path has to select nothing.
///
/// The search stops at the first such value, and visits no referenced object twice for one step. It
/// costs at most the number of steps times the size of the bundle. Takes memory where the value
/// encodes bytes, and where the path has a `[*]`.
pub fn holds(alloc: Global, test: &Test, bundle: &Bundle, root: u32) -> Result<bool, NoMemory>
    requires { IsSoundTest test.now }
    ensures { IfOk result (λ holds. IsTrue holds ↔ TestHolds (data_in bundle.now) root test.now) }
{
    let search = Search::new(alloc, bundle, test, 1);
    let mut memo = SearchMemo::new(alloc);
    meets_test(&search, &mut memo, test, root)
}

/// Whether the comparison holds at `root`, with a memo shared by all roots.
pub(crate) fn meets_test(
    search: &Search<'_>,
    memo: &mut SearchMemo,
    test: &Test,
    root: u32,
) -> Result<bool, NoMemory>
    requires sound { IsSoundTest test.now }
    requires is { IsSearchOf test.now search.now }
    requires right { IsSoundSearchMemo search.now memo.old }
    ensures holds { IfOk result (λ holds. IsTrue holds
        ↔ TestHolds (data_in search.now.bundle.now) root test.now) }
    ensures right { OnOk result (IsSoundSearchMemo search.now memo.new) }
{
    let Some(object) = root_of(search.bundle, root, test.path.kind.as_str()) else {
        return Ok(false);
    };
    let found = is_reached(search, memo, test, object)?;
    if is_absence(test) {
        Ok(!found)
    } else {
        Ok(found)
    }
}

/// Whether the steps of the path reach a value that the search looks for.
fn is_reached(
    search: &Search<'_>,
    memo: &mut SearchMemo,
    test: &Test,
    object: &Json,
) -> Result<bool, NoMemory>
    requires sound { IsSoundTest test.now }
    requires is { IsSearchOf test.now search.now }
    requires right { IsSoundSearchMemo search.now memo.old }
    requires ordered { IsOrdered (data_of object.now) }
    ensures found { IfOk result (λ found. IsTrue found
        ↔ ((value : Data) × Reaches (data_in search.now.bundle.now) None test.now.path.steps
        (data_of object.now) value
        × NegatedIf search.now.negated (MeetsCheck
        (last_property test.now.path) value test.now.check))) }
    ensures right { OnOk result (IsSoundSearchMemo search.now memo.new) }
{
    finds(search, memo, None, search.steps, object)
}
