//! The binary operators on bindings.

ghost use Rattle.std.specs.Prelude.{◌≡◌, ◌++◌, IfOk, OnOk, map};
ghost use Rattle.match_bindings.specs.BindTree.{Pair, Single, tree_of, many_of, add_part};
ghost use Rattle.match_bindings.specs.inner.Candidates.{spanned_tree, spanned_trees};
ghost use Rattle.match_bindings.specs.inner.Candidates.{joined_bindings};
ghost use Rattle.match_bindings.specs.inner.Candidates.{admits, may_join_spans, span_join_row};
ghost use Rattle.match_bindings.specs.inner.Candidates.{span_joins};
ghost use Rattle.match_bindings.specs.inner.Kinds.{chain_of};

use crate::Bind;
use crate::bounds::Bounds;
use crate::numbers::are_disjoint;
use crate::span::Span;
use crate::spanned_bind::SpannedBind;
use flow_values::{Items, NoMemory};
use std::alloc::Global;
use std::rc::Rc;

/// The operator that joins two bindings.
#[derive(Clone, Copy)]
pub(crate) enum Join {
    /// `AND`.
    Both,
    /// `FOLLOWEDBY`.
    Then,
    /// `REPEATS`: its parts so far, and the next one.
    Repeats,
}

impl Join {
    /// Whether two spans are in the order that the operator requires.
    pub fn admits(self, first: &Span, second: &Span) -> bool
        ensures { result ≡ admits self first.now second.now }
    {
        match self {
            Join::Both => true,
            Join::Then => first.latest <= second.earliest,
            Join::Repeats => first.greatest < second.greatest,
        }
    }

    /// The joined binding.
    fn bind(self, alloc: Global, first: &Bind, second: &Bind) -> Result<Bind, NoMemory>
        ensures { IfOk result (λ bind. tree_of bind
            ≡ joined_bindings self (tree_of first.now) (tree_of second.now)) }
    {
        match self {
            Join::Both | Join::Then => with_sides(alloc, first, second),
            Join::Repeats => with_part(alloc, first, second),
        }
    }

    /// Whether two bindings join within the limits.
    fn may_join(self, bounds: &Bounds, first: &SpannedBind, second: &SpannedBind) -> bool
        ensures { result ≡ may_join_spans self bounds.now (spanned_tree first.now)
            (spanned_tree second.now) }
    {
        self.admits(&first.span, &second.span)
            && bounds.fits(&first.span.joined(&second.span))
            && are_disjoint(&first.bind, &second.bind)
    }

    /// Joins a binding with each of the others that it joins.
    fn join_row(
        self,
        alloc: Global,
        bounds: &Bounds,
        first: &SpannedBind,
        seconds: &[SpannedBind],
        out: &mut Vec<SpannedBind>,
    ) -> Result<(), NoMemory>
        ensures { OnOk result (spanned_trees out.new.items ≡ spanned_trees out.old.items
            ++ span_join_row self bounds.now (spanned_tree first.now) (spanned_trees seconds.now)) }
    {
        for second in seconds {
            if self.may_join(bounds, first, second) {
                let bind = self.bind(alloc, &first.bind, &second.bind)?;
                let span = first.span.joined(&second.span);
                out.push(SpannedBind { bind, span })?;
            }
        }
        Ok(())
    }

    /// Joins each of the first bindings with each of the second ones that it joins. A nested-loop
    /// join.
    pub fn join(
        self,
        alloc: Global,
        bounds: &Bounds,
        firsts: &[SpannedBind],
        seconds: &[SpannedBind],
    ) -> Result<Vec<SpannedBind>, NoMemory>
        ensures { IfOk result (λ out. spanned_trees out.items
            ≡ span_joins self bounds.now (spanned_trees firsts.now) (spanned_trees seconds.now)) }
    {
        let mut out = Vec::new(alloc);
        for first in firsts {
            self.join_row(alloc, bounds, first, seconds, &mut out)?;
        }
        Ok(out)
    }
}

/// The binding of an `AND` or a `FOLLOWEDBY` of these two.
pub fn with_sides(alloc: Global, left: &Bind, right: &Bind) -> Result<Bind, NoMemory>
    ensures { IfOk result (λ bind. tree_of bind ≡ Pair (tree_of left.now) (tree_of right.now)) }
{
    let left = left.clone()?;
    let right = right.clone()?;
    Ok(Bind::Both(Rc::new(alloc, (left, right))?))
}

/// A `Many` of one part.
pub fn singleton(alloc: Global, part: &Bind) -> Result<Bind, NoMemory>
    ensures { IfOk result (λ bind. tree_of bind ≡ Single (tree_of part.now)) }
{
    let mut parts = Items::new(alloc);
    parts.push(part.clone()?)?;
    Ok(Bind::Many(Rc::new(alloc, parts)?))
}

/// A `Many` with one more part at the end. Where `parts` is no `Many`, a `Many` of the new part
/// alone.
pub fn with_part(alloc: Global, parts: &Bind, part: &Bind) -> Result<Bind, NoMemory>
    ensures { IfOk result (λ bind. tree_of bind ≡ add_part (tree_of parts.now) (tree_of part.now)) }
{
    let mut parts = parts_of(alloc, parts)?;
    parts.push(part.clone()?)?;
    Ok(Bind::Many(Rc::new(alloc, parts)?))
}

/// The parts of a `Many`. Empty for any other binding.
#[tactic(auto, using(crate::proofs::ManyLemmas::many_chain, crate::proofs::ManyLemmas::no_chain))]
fn parts_of(alloc: Global, bind: &Bind) -> Result<Items<Bind>, NoMemory>
    ensures { IfOk result (λ parts. many_of (map tree_of parts) ≡ chain_of (tree_of bind.now)) }
{
    match bind.parts() {
        Some(parts) => clones(alloc, parts),
        None => Ok(Items::new(alloc)),
    }
}

/// Copies of bindings.
fn clones(alloc: Global, binds: &[Bind]) -> Result<Items<Bind>, NoMemory>
    ensures { IfOk result (λ clones. map tree_of clones ≡ map tree_of binds.now) }
{
    let mut clones = Items::new(alloc);
    for bind in binds {
        clones.push(bind.clone()?)?;
    }
    Ok(clones)
}
