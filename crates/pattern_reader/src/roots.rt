ghost use Rattle.std.specs.Prelude.{◌≡◌, ◌↔◌, ◌⊎◌, ℕ, List, IfOk, IsSomeAnd, IsTrue, IsFalse};
ghost use Rattle.pattern_reader.specs.Roots.{HasName};

use flow_values::NoMemory;
use std::alloc::Global;
use std::collections::BTreeSet;

/// The set of at most one name.
pub(crate) fn of_name<'a>(
    alloc: Global,
    name: Option<&'a str>,
) -> Result<BTreeSet<&'a str>, NoMemory>
    ensures { IfOk result (λ names. (other : List ℕ)
        → HasName names other ↔ IsSomeAnd name.entry (λ one. other ≡ one.now)) }
{
    match name {
        Some(name) => singleton(alloc, name),
        None => Ok(BTreeSet::new(alloc)),
    }
}

/// The set of one name.
fn singleton<'a>(alloc: Global, name: &'a str) -> Result<BTreeSet<&'a str>, NoMemory>
    ensures { IfOk result (λ names. (other : List ℕ) → HasName names other ↔ (other ≡ name.now)) }
{
    let mut names = BTreeSet::new(alloc);
    names.insert(name)?;
    Ok(names)
}

/// The intersection of both sets.
pub(crate) fn common<'a>(
    alloc: Global,
    left: &BTreeSet<&'a str>,
    right: &BTreeSet<&'a str>,
) -> Result<BTreeSet<&'a str>, NoMemory>
    ensures { IfOk result (λ names. (name : List ℕ)
        → HasName names name ↔ (HasName left.now name × HasName right.now name)) }
{
    let names = left.intersection(right).copied().collect(alloc)?;
    Ok(names)
}

/// The union of both sets. Inserts the smaller one into the larger one.
pub(crate) fn either<'a>(
    left: BTreeSet<&'a str>,
    right: BTreeSet<&'a str>,
) -> Result<BTreeSet<&'a str>, NoMemory>
    ensures { IfOk result (λ names. (name : List ℕ)
        → HasName names name ↔ (HasName left.entry name ⊎ HasName right.entry name)) }
{
    if left.len() < right.len() {
        return with(right, left);
    }
    with(left, right)
}

/// The set with more names.
fn with<'a>(
    mut names: BTreeSet<&'a str>,
    mut others: BTreeSet<&'a str>,
) -> Result<BTreeSet<&'a str>, NoMemory>
    ensures { IfOk result (λ all. (name : List ℕ)
        → HasName all name ↔ (HasName names.entry name ⊎ HasName others.entry name)) }
{
    names.append(&mut others)?;
    Ok(names)
}

/// Whether the set is empty.
pub(crate) fn is_none(names: &BTreeSet<&str>) -> bool
    ensures none { IsTrue result → (name : List ℕ) → ¬ HasName names.now name }
    ensures some { IsFalse result → (name : List ℕ) × HasName names.now name }
{
    names.is_empty()
}
