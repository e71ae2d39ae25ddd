//! A fast check whether bindings are sorted already, by a simultaneous walk down two neighbors. It
//! takes no memory. False only means that the check can't tell.

ghost use Rattle.std.specs.Prelude.{◌≡◌, true, false, IsTrue, map};
ghost use Rattle.std.specs.List.Sorted.{IsSortedBy};
ghost use Rattle.match_bindings.specs.BindTree.{First, Second, firsts, tree_of};
ghost use Rattle.match_bindings.specs.Flat.{comes_before};
ghost use Rattle.match_bindings.specs.inner.Ascending.{FlatAscends, is_second};

use crate::Bind;
use crate::numbers::greatest_number;

/// Whether the bindings are sorted, as far as the check can tell.
pub(crate) fn are_ascending(binds: &[Bind]) -> bool
    // One-sided: false promises nothing.
    ensures { IsTrue result → IsSortedBy comes_before (map tree_of binds.now) }
{
    for at in 1..binds.len() {
        let before = &binds[at - 1];
        if !ascends(before, &binds[at]) {
            return false;
        }
    }
    true
}

/// Whether the second binding doesn't come before the first.
fn ascends(first: &Bind, second: &Bind) -> bool
    ensures { IsTrue result → comes_before (tree_of second.now) (tree_of first.now) ≡ false }
{
    let least = greatest_number(first);
    let most = greatest_number(second);
    least < most || (least == most && flat_ascends(first, second))
}

/// Whether it doesn't, by flat lists alone.
#[cycle(flat_ascends)]
fn flat_ascends(first: &Bind, second: &Bind) -> bool
    ensures { IsTrue result → FlatAscends (tree_of first.now) (tree_of second.now) }
{
    match first {
        Bind::First(more, part) => first_ascends(*more, part, second),
        Bind::Second(part) => second_ascends(part, second),
        Bind::One(number) => match second.number() {
            Some(other) => *number <= other,
            None => false,
        },
        Bind::Both(_) | Bind::Many(_) => false,
    }
}

/// Whether it doesn't, where the first is a `First`.
#[cycle(flat_ascends)]
fn first_ascends(more: u32, part: &Bind, second: &Bind) -> bool
    ensures { IsTrue result → FlatAscends (First (firsts more (tree_of part.now)))
        (tree_of second.now) }
{
    match second {
        Bind::First(others, other) => {
            if more == *others {
                return flat_ascends(part, other);
            }
            more > *others && is_second(other)
        }
        Bind::Second(_) => true,
        Bind::One(_) | Bind::Both(_) | Bind::Many(_) => false,
    }
}

/// Whether it doesn't, where the first is a `Second`.
#[cycle(flat_ascends)]
fn second_ascends(part: &Bind, second: &Bind) -> bool
    ensures { IsTrue result → FlatAscends (Second (tree_of part.now)) (tree_of second.now) }
{
    match second {
        Bind::Second(other) => flat_ascends(part, other),
        Bind::One(_) | Bind::Both(_) | Bind::First(_, _) | Bind::Many(_) => false,
    }
}

/// Whether a binding is a `Second`.
fn is_second(bind: &Bind) -> bool
    ensures { IsTrue result → is_second (tree_of bind.now) ≡ true }
{
    match bind {
        Bind::Second(_) => true,
        Bind::One(_) | Bind::Both(_) | Bind::First(_, _) | Bind::Many(_) => false,
    }
}
