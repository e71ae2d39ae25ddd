//! The memoized depth-first search for a value that meets a check.
//!
//! The result from a referenced object depends only on the object and on how many steps are left,
//! so the memo keeps one answer for each such pair. Each pair is searched once, however many ways
//! lead there, which bounds the search by the number of steps times the size of the bundle.
//! References don't make it loop, since each reference takes a step of the path.

ghost use Rattle.std.specs.Prelude.{◌≡◌, ◌↔◌, ◌∷◌, List, IfOk, OnOk, IfSome, IsTrue, All};
ghost use Rattle.stix_json.specs.DataOf.{data_of};
ghost use Rattle.stix_json.specs.Ordered.{IsOrdered};
ghost use Rattle.stix_bundles.specs.Objects.{data_in};
ghost use Rattle.pattern_types.specs.declared.path.Step.{Step};
ghost use Rattle.match_comparisons.specs.Tests.{IsAbsence};
ghost use Rattle.match_comparisons.specs.inner.Search.{borrowed_name, Finds, SomeFinds, FindsAt};
ghost use Rattle.match_comparisons.specs.inner.Search.{IsSoundSearchMemo, IsSearchState};
ghost use Rattle.match_comparisons.specs.inner.Search.{IsSearchOf};

use crate::check::meets_unless_negated;
use crate::last::last_name;
use crate::laws::same_lead;
use crate::memo::SearchMemo;
use crate::{name_after, object_at, reference, selected};
use flow_values::NoMemory;
use pattern_types::{Check, Step, Test};
use std::alloc::Global;
use stix_bundles::Bundle;
use stix_json::Json;

/// A search: the steps of a path, and the check that a value at its end has to meet, or not to meet
/// where `negated`.
#[derive(Clone, Copy)]
pub(crate) struct Search<'a> {
    pub(crate) alloc: Global,
    pub(crate) bundle: &'a Bundle,
    pub(crate) steps: &'a [Step],
    /// The last property name of the path.
    pub(crate) last: Option<&'a str>,
    pub(crate) check: &'a Check,
    pub(crate) negated: bool,
    /// Whether it may come to an object again, so that findings are worth keeping.
    pub(crate) revisits: bool,
}

impl<'a> Search<'a> {
    /// The search of a comparison, for `roots` roots. From one root and along a path without `[*]`
    /// it comes to no object twice, and keeps no findings.
    pub(crate) fn new(alloc: Global, bundle: &'a Bundle, test: &'a Test, roots: usize) -> Search<'a>
        ensures is { IsSearchOf test.entry.now result }
        ensures bundle { result.bundle ≡ bundle.entry }
    {
        let steps = test.path.steps.as_slice();
        Search {
            alloc,
            bundle,
            steps,
            last: last_name(&test.path),
            check: &test.check,
            negated: test.negated && !is_absence(test),
            revisits: roots > 1 || steps.iter().any(|step| matches!(step, Step::Each)),
        }
    }
}

/// Whether a comparison is `NOT EXISTS`.
pub(crate) fn is_absence(test: &Test) -> bool
    ensures { IsTrue result ↔ IsAbsence test.now }
{
    test.negated && matches!(&test.check, Check::Exists)
}

/// Whether the steps reach such a value from this one. `last` is the last property name before it.
#[cycle(search)]
pub(crate) fn finds(
    search: &Search<'_>,
    memo: &mut SearchMemo,
    last: Option<&str>,
    steps: &[Step],
    value: &Json,
) -> Result<bool, NoMemory>
    // The memo is sound for the remaining steps of this path.
    requires before { IsSearchState search.now steps.now memo.old }
    requires ordered { IsOrdered (data_of value.now) }
    ensures found { IfOk result (λ found. IsTrue found
        ↔ Finds search.now (borrowed_name last.entry) steps.now (data_of value.now)) }
    // The memo stays sound, so it can serve the next root.
    ensures right { OnOk result (IsSoundSearchMemo search.now memo.new) }
{
    let Some((step, rest)) = steps.split_first() else {
        return meets_unless_negated(
            search.alloc,
            search.last,
            value,
            search.check,
            search.negated,
        );
    };
    if let Some(at) = referred(search, last, step, value) {
        return finds_at(search, memo, step, rest, at);
    }
    let values = selected(search.bundle, last, step, value);
    some_finds(search, memo, name_after(last, step), rest, values)
}

/// The position of the referenced object, where the step leads through a reference.
fn referred(search: &Search<'_>, last: Option<&str>, step: &Step, value: &Json) -> Option<u32>
    ensures { IfSome result (λ at. (rest : List Step)
        → Finds search.now (borrowed_name last.entry) (step.now ∷ rest) (data_of value.now)
        ↔ FindsAt search.now (step.now ∷ rest) at) }
{
    same_lead();
    match step {
        Step::Name(_) => reference(search.bundle, last, value),
        Step::Place(_) | Step::Each => None,
    }
}

/// Whether the steps reach such a value from one of the values.
#[cycle(search)]
fn some_finds(
    search: &Search<'_>,
    memo: &mut SearchMemo,
    last: Option<&str>,
    steps: &[Step],
    values: &[Json],
) -> Result<bool, NoMemory>
    requires before { IsSearchState search.now steps.now memo.old }
    requires ordered { All IsOrdered (data_in values.now) }
    ensures found { IfOk result (λ found. IsTrue found
        ↔ SomeFinds search.now (borrowed_name last.entry) steps.now (data_in values.now)) }
    ensures right { OnOk result (IsSoundSearchMemo search.now memo.new) }
{
    for value in values {
        if finds(search, memo, last, steps, value)? {
            return Ok(true);
        }
    }
    Ok(false)
}

/// Whether the steps reach such a value from the object at this position. Looks into the memo
/// first, and keeps the finding there.
#[cycle(search)]
fn finds_at(
    search: &Search<'_>,
    memo: &mut SearchMemo,
    step: &Step,
    rest: &[Step],
    at: u32,
) -> Result<bool, NoMemory>
    requires { IsSearchState search.now (step.now ∷ rest.now) memo.old }
    ensures found { IfOk result (λ found. IsTrue found
        ↔ FindsAt search.now (step.now ∷ rest.now) at) }
    ensures right { OnOk result (IsSoundSearchMemo search.now memo.new) }
{
    if let Some(found) = memo.known(rest.len(), at) {
        return Ok(found);
    }
    let Some(object) = object_at(search.bundle, at) else {
        return Ok(false);
    };
    let values = selected(search.bundle, None, step, object);
    let found = some_finds(search, memo, name_after(None, step), rest, values)?;
    if search.revisits {
        memo.add(rest.len(), at, found)?;
    }
    Ok(found)
}
