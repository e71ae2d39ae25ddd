//! The observation numbers of bindings.

ghost use Rattle.std.specs.Prelude.{◌≡◌, map};
ghost use Rattle.match_bindings.specs.BindTree.{tree_of, many_of, has, disjoint, greatest};

use crate::Bind;

/// Whether a binding has the number.
#[cycle(has)]
pub(crate) fn has_number(number: u64, bind: &Bind) -> bool
    ensures { result ≡ has number (tree_of bind.now) }
{
    match bind {
        Bind::One(other) => number == *other,
        Bind::Both(sides) => has_number(number, &sides.0) || has_number(number, &sides.1),
        Bind::First(_, part) | Bind::Second(part) => has_number(number, part),
        Bind::Many(parts) => any_has_number(number, parts.as_slice()),
    }
}

/// Whether one of the bindings has it.
#[cycle(has)]
#[tactic(auto, using(crate::proofs::ManyLemmas::many_has))]
fn any_has_number(number: u64, binds: &[Bind]) -> bool
    ensures { result ≡ has number (many_of (map tree_of binds.now)) }
{
    for bind in binds {
        if has_number(number, bind) {
            return true;
        }
    }
    false
}

/// Whether two bindings have no number in common. Takes no memory.
#[cycle(disjoint)]
pub fn are_disjoint(bind: &Bind, other: &Bind) -> bool
    ensures { result ≡ disjoint (tree_of bind.now) (tree_of other.now) }
{
    match bind {
        Bind::One(number) => !has_number(*number, other),
        Bind::Both(sides) => are_disjoint(&sides.0, other) && are_disjoint(&sides.1, other),
        Bind::First(_, part) | Bind::Second(part) => are_disjoint(part, other),
        Bind::Many(parts) => all_disjoint(parts.as_slice(), other),
    }
}

/// Whether none of the bindings has a number in common with `other`.
#[cycle(disjoint)]
#[tactic(auto, using(crate::proofs::ManyLemmas::many_disjoint))]
pub(crate) fn all_disjoint(binds: &[Bind], other: &Bind) -> bool
    ensures { result ≡ disjoint (many_of (map tree_of binds.now)) (tree_of other.now) }
{
    for bind in binds {
        if !are_disjoint(bind, other) {
            return false;
        }
    }
    true
}

/// The greatest number of a binding, or 0. Takes no memory.
#[cycle(greatest)]
pub fn greatest_number(bind: &Bind) -> u64
    ensures { result ≡ greatest (tree_of bind.now) }
{
    match bind {
        Bind::One(number) => *number,
        Bind::Both(sides) => greatest_number(&sides.0).max(greatest_number(&sides.1)),
        Bind::First(_, part) | Bind::Second(part) => greatest_number(part),
        Bind::Many(parts) => greatest_of_all(parts.as_slice()),
    }
}

/// The greatest number of some bindings, or 0.
#[cycle(greatest)]
#[tactic(auto, using(crate::proofs::ManyLemmas::many_greatest))]
fn greatest_of_all(binds: &[Bind]) -> u64
    ensures { result ≡ greatest (many_of (map tree_of binds.now)) }
{
    let mut most = 0;
    for bind in binds {
        most = most.max(greatest_number(bind));
    }
    most
}
