//! Enumerates the bindings of a pattern bottom-up: nested-loop joins of the bindings of its parts,
//! with the limits of the qualifiers pushed down to the leaves.

ghost use Rattle.std.specs.Prelude.{◌≡◌, ◌++◌, ◌+◌, ◌<◌, ◌^◌, IfOk, OnOk, length, map};
ghost use Rattle.pattern_types.specs.Leaves.{leaves};
ghost use Rattle.match_bindings.specs.NumberedPattern.{numbered_from};
ghost use Rattle.match_bindings.specs.BindTree.{First, Second, Single};
ghost use Rattle.match_bindings.specs.Log.{observed_in};
ghost use Rattle.match_bindings.specs.inner.Candidates.{spanned_trees, spanned_with, ones};
ghost use Rattle.match_bindings.specs.inner.Candidates.{span_joins};
ghost use Rattle.match_bindings.specs.inner.Candidates.{repeats_of, candidates};

use crate::bounds::Bounds;
use crate::join::{Join, singleton};
use crate::spanned_bind::SpannedBind;
use crate::{Bind, Log};
use flow_values::NoMemory;
use pattern_types::{Pattern, leaf_count};
use std::alloc::Global;

/// The bindings of a pattern within these limits, where its leftmost leaf has the number `leaf`.
#[cycle(candidates)]
pub(crate) fn candidates(
    alloc: Global,
    pattern: &Pattern,
    leaf: u32,
    log: &Log,
    bounds: &Bounds,
) -> Result<Vec<SpannedBind>, NoMemory>
    requires { leaf + leaves pattern.now < 2 ^ 32 }
    ensures { IfOk result (λ out. spanned_trees out.items
        ≡ candidates (observed_in log.now) (length log.now) bounds.now
        (numbered_from leaf pattern.now)) }
{
    match pattern {
        Pattern::Leaf(_) => found_at_leaf(alloc, leaf, log, bounds),
        Pattern::Both(left, right) => {
            joined_sides(alloc, Join::Both, left, right, leaf, log, bounds)
        }
        Pattern::Then(left, right) => {
            joined_sides(alloc, Join::Then, left, right, leaf, log, bounds)
        }
        Pattern::Either(left, right) => either_side(alloc, left, right, leaf, log, bounds),
        Pattern::Within(part, seconds) => {
            let narrow = bounds.within(*seconds);
            candidates(alloc, part, leaf, log, &narrow)
        }
        Pattern::Between(part, start, stop) => {
            let narrow = bounds.between(*start, *stop);
            candidates(alloc, part, leaf, log, &narrow)
        }
        Pattern::Repeats(part, count) => {
            let parts = candidates(alloc, part, leaf, log, bounds)?;
            repeats_of(alloc, bounds, &parts, *count)
        }
    }
}

/// The bindings of an `AND` or a `FOLLOWEDBY`.
#[cycle(candidates)]
fn joined_sides(
    alloc: Global,
    join: Join,
    left: &Pattern,
    right: &Pattern,
    leaf: u32,
    log: &Log,
    bounds: &Bounds,
) -> Result<Vec<SpannedBind>, NoMemory>
    requires { leaf + (leaves left.now + leaves right.now) < 2 ^ 32 }
    ensures { IfOk result (λ out. spanned_trees out.items
        ≡ span_joins join bounds.now (candidates (observed_in log.now) (length log.now) bounds.now
        (numbered_from leaf left.now))
        (candidates (observed_in log.now) (length log.now) bounds.now
        (numbered_from (leaf + leaves left.now) right.now))) }
{
    let firsts = candidates(alloc, left, leaf, log, bounds)?;
    let seconds = candidates(alloc, right, leaf + leaf_count(left), log, bounds)?;
    join.join(alloc, bounds, &firsts, &seconds)
}

/// The bindings of an `OR`.
#[cycle(candidates)]
fn either_side(
    alloc: Global,
    left: &Pattern,
    right: &Pattern,
    leaf: u32,
    log: &Log,
    bounds: &Bounds,
) -> Result<Vec<SpannedBind>, NoMemory>
    requires { leaf + (leaves left.now + leaves right.now) < 2 ^ 32 }
    ensures { IfOk result (λ out. spanned_trees out.items
        ≡ map (spanned_with First) (candidates (observed_in log.now) (length log.now) bounds.now
        (numbered_from leaf left.now))
        ++ map (spanned_with Second) (candidates (observed_in log.now) (length log.now) bounds.now
        (numbered_from (leaf + leaves left.now) right.now))) }
{
    let firsts = candidates(alloc, left, leaf, log, bounds)?;
    let seconds = candidates(alloc, right, leaf + leaf_count(left), log, bounds)?;
    either_of(alloc, firsts, seconds)
}

/// The observations within the limits for which a leaf holds.
fn found_at_leaf(
    alloc: Global,
    leaf: u32,
    log: &Log,
    bounds: &Bounds,
) -> Result<Vec<SpannedBind>, NoMemory>
    ensures { IfOk result (λ out. spanned_trees out.items
        ≡ ones (observed_in log.now) bounds.now leaf (length log.now)) }
{
    let mut out = Vec::new(alloc);
    for at in 0..log.len() {
        let number = at + 1;
        if let Some(span) = log.span_of(leaf, number) {
            if bounds.fits(&span) {
                let bind = Bind::One(number);
                out.push(SpannedBind { bind, span })?;
            }
        }
    }
    Ok(out)
}

/// Wraps the bindings of both sides of an `OR`.
fn either_of(
    alloc: Global,
    firsts: Vec<SpannedBind>,
    seconds: Vec<SpannedBind>,
) -> Result<Vec<SpannedBind>, NoMemory>
    ensures { IfOk result (λ out. spanned_trees out.items
        ≡ map (spanned_with First) (spanned_trees firsts.items)
        ++ map (spanned_with Second) (spanned_trees seconds.items)) }
{
    let mut out = Vec::new(alloc);
    push_firsts(alloc, firsts, &mut out)?;
    push_seconds(alloc, seconds, &mut out)?;
    Ok(out)
}

/// Appends the bindings of the left side of an `OR`.
fn push_firsts(
    alloc: Global,
    firsts: Vec<SpannedBind>,
    out: &mut Vec<SpannedBind>,
) -> Result<(), NoMemory>
    ensures { OnOk result (spanned_trees out.new.items ≡ spanned_trees out.old.items
        ++ map (spanned_with First) (spanned_trees firsts.items)) }
{
    for first in firsts {
        let SpannedBind { bind, span } = first;
        let bind = Bind::under_firsts(alloc, 1, bind)?;
        out.push(SpannedBind { bind, span })?;
    }
    Ok(())
}

/// Appends the bindings of the right side of an `OR`.
fn push_seconds(
    alloc: Global,
    seconds: Vec<SpannedBind>,
    out: &mut Vec<SpannedBind>,
) -> Result<(), NoMemory>
    ensures { OnOk result (spanned_trees out.new.items ≡ spanned_trees out.old.items
        ++ map (spanned_with Second) (spanned_trees seconds.items)) }
{
    for second in seconds {
        let SpannedBind { bind, span } = second;
        let bind = Bind::under_second(alloc, bind)?;
        out.push(SpannedBind { bind, span })?;
    }
    Ok(())
}

/// The bindings of a `REPEATS count`.
fn repeats_of(
    alloc: Global,
    bounds: &Bounds,
    parts: &[SpannedBind],
    count: u32,
) -> Result<Vec<SpannedBind>, NoMemory>
    ensures { IfOk result (λ out. spanned_trees out.items
        ≡ repeats_of bounds.now (spanned_trees parts.now) count) }
{
    if count == 0 {
        return Ok(Vec::new(alloc));
    }
    let mut sets = singles(alloc, parts)?;
    for level in 1..count {
        let _ = level;
        sets = Join::Repeats.join(alloc, bounds, &sets, parts)?;
    }
    Ok(sets)
}

/// Each part as a `Many` of one.
fn singles(alloc: Global, parts: &[SpannedBind]) -> Result<Vec<SpannedBind>, NoMemory>
    ensures { IfOk result (λ out. spanned_trees out.items
        ≡ map (spanned_with Single) (spanned_trees parts.now)) }
{
    let mut out = Vec::new(alloc);
    for part in parts {
        let bind = singleton(alloc, &part.bind)?;
        let span = part.span.copied();
        out.push(SpannedBind { bind, span })?;
    }
    Ok(out)
}
