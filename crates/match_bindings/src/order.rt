//! Sorts bindings by greatest number and then by flat list. A list that is seen to be sorted
//! already is returned as it is; any other is sorted by precomputed keys (decorate, sort,
//! undecorate).

ghost use Rattle.std.specs.Prelude.{◌≡◌, IfOk, map};
ghost use Rattle.std.specs.List.Sorted.{IsSortedBy};
ghost use Rattle.match_bindings.specs.BindTree.{BindTree, tree_of};
ghost use Rattle.match_bindings.specs.Once.{count};
ghost use Rattle.match_bindings.specs.Flat.{comes_before};
ghost use Rattle.match_bindings.specs.Ranks.{ranked_trees};

use crate::Bind;
use crate::ascending::are_ascending;
use crate::flat_list::push_flat;
use crate::numbers::greatest_number;
use crate::ranked::Ranked;
use flow_values::NoMemory;
use std::alloc::Global;

/// The bindings, sorted by greatest number and then by flat list. Takes no memory where they are
/// seen to be sorted already.
pub fn in_order(alloc: Global, binds: Vec<Bind>) -> Result<Vec<Bind>, NoMemory>
    ensures counts { IfOk result (λ sorted. (x : BindTree)
        → count x (map tree_of sorted.items) ≡ count x (map tree_of binds.items)) }
    ensures ascends { IfOk result (λ sorted. IsSortedBy comes_before (map tree_of sorted.items)) }
{
    if binds.len() < 2 || are_ascending(&binds) {
        return Ok(binds);
    }
    let sorted = by_rank(alloc, binds)?;
    Ok(sorted)
}

/// Sorts by precomputed keys.
fn by_rank(alloc: Global, binds: Vec<Bind>) -> Result<Vec<Bind>, NoMemory>
    ensures counts { IfOk result (λ sorted. (x : BindTree)
        → count x (map tree_of sorted.items) ≡ count x (map tree_of binds.items)) }
    ensures ascends { IfOk result (λ sorted. IsSortedBy comes_before (map tree_of sorted.items)) }
{
    let mut all = ranked(alloc, binds)?;
    all.sort_by(|a, b| a.key.as_slice().cmp(b.key.as_slice()))?;
    let sorted = unranked(alloc, all)?;
    Ok(sorted)
}

/// Each binding with its sort key.
fn ranked(alloc: Global, binds: Vec<Bind>) -> Result<Vec<Ranked>, NoMemory>
    ensures { IfOk result (λ all. ranked_trees all.items ≡ map tree_of binds.items) }
{
    let mut all = Vec::new(alloc);
    for bind in binds {
        let mut key = Vec::new(alloc);
        key.push(greatest_number(&bind))?;
        push_flat(&bind, &mut key)?;
        all.push(Ranked { key, bind })?;
    }
    Ok(all)
}

/// The bindings without their sort keys.
fn unranked(alloc: Global, all: Vec<Ranked>) -> Result<Vec<Bind>, NoMemory>
    ensures { IfOk result (λ binds. map tree_of binds.items ≡ ranked_trees all.items) }
{
    let mut binds = Vec::new(alloc);
    for one in all {
        binds.push(one.bind)?;
    }
    Ok(binds)
}
