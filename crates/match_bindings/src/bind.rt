ghost use Rattle.std.specs.Prelude.{◌≡◌, ◌<◌, false, IfOk, IfSome, IfNone, map};
ghost use Rattle.std.specs.Rc.{rc_value};
ghost use Rattle.match_bindings.specs.BindTree.{tree_of, many_of, firsts, One, Pair, First, Second};
ghost use Rattle.match_bindings.specs.inner.Kinds.{is_one, is_pair, is_chain};

use flow_values::{Items, NoMemory};
use std::alloc::{AllocError, Global};
use std::rc::Rc;

/// A binding: which observations match which parts of a pattern. Observations are numbered from 1.
/// Subtrees are shared by reference count, so a clone takes no memory.
#[derive(Drop)]
pub enum Bind {
    /// The observation that matches a leaf.
    One(u64),
    /// The bindings of the two sides of an `AND` or a `FOLLOWEDBY`.
    Both(Rc<(Bind, Bind)>),
    /// The binding of the left side of an `OR`. The count is how many further `OR`s it is nested
    /// in, each time on the left.
    First(u32, Rc<Bind>),
    /// The binding of the right side of an `OR`.
    Second(Rc<Bind>),
    /// The bindings of the repeats of a `REPEATS`.
    Many(Rc<Items<Bind>>),
}

impl Bind {
    /// Wraps a binding in `count` `First`s. Extends the count of one that is a `First` already.
    pub fn under_firsts(alloc: Global, count: u32, bind: Bind) -> Result<Bind, NoMemory>
        // A count in one node has the meaning of nested `First`s.
        ensures { IfOk result (λ above. tree_of above ≡ firsts count (tree_of bind)) }
    {
        if count == 0 {
            return Ok(bind);
        }
        match bind {
            Bind::First(more, part) => longer_run(alloc, count, more, part),
            other => Ok(Bind::First(count - 1, Rc::new(alloc, other)?)),
        }
    }

    /// Wraps a binding in a `Second`.
    pub fn under_second(alloc: Global, bind: Bind) -> Result<Bind, NoMemory>
        ensures { IfOk result (λ above. tree_of above ≡ Second (tree_of bind)) }
    {
        Ok(Bind::Second(Rc::new(alloc, bind)?))
    }

    /// The number of a `One`.
    pub(crate) fn number(&self) -> Option<u64>
        ensures some { IfSome result (λ number. tree_of self.now ≡ One number) }
        ensures none { IfNone result (is_one (tree_of self.now) ≡ false) }
    {
        match self {
            Bind::One(number) => Some(*number),
            Bind::Both(_) | Bind::First(_, _) | Bind::Second(_) => None,
            Bind::Many(_) => None,
        }
    }

    /// The sides of a `Both`.
    pub(crate) fn sides(&self) -> Option<(&Bind, &Bind)>
        ensures some { IfSome result (λ sides. tree_of self.now
            ≡ Pair (tree_of sides.0.now) (tree_of sides.1.now)) }
        ensures none { IfNone result (is_pair (tree_of self.now) ≡ false) }
    {
        match self {
            Bind::Both(sides) => Some((&sides.0, &sides.1)),
            Bind::One(_) | Bind::First(_, _) | Bind::Second(_) => None,
            Bind::Many(_) => None,
        }
    }

    /// The parts of a `Many`.
    pub(crate) fn parts(&self) -> Option<&[Bind]>
        ensures some { IfSome result (λ parts. tree_of self.now ≡ many_of (map tree_of parts.now)) }
        ensures none { IfNone result (is_chain (tree_of self.now) ≡ false) }
    {
        match self {
            Bind::Many(parts) => Some(parts.as_slice()),
            Bind::One(_) | Bind::Both(_) | Bind::First(_, _) | Bind::Second(_) => None,
        }
    }
}

impl Clone for Bind {
    ghost is_clone = { λ bind copy. tree_of copy ≡ tree_of bind };

    fn clone(&self) -> Result<Bind, AllocError> {
        match self {
            Bind::One(number) => Ok(Bind::One(*number)),
            Bind::Both(sides) => Ok(Bind::Both(sides.clone()?)),
            Bind::First(more, part) => Ok(Bind::First(*more, part.clone()?)),
            Bind::Second(part) => Ok(Bind::Second(part.clone()?)),
            Bind::Many(parts) => Ok(Bind::Many(parts.clone()?)),
        }
    }
}

/// A `First` under `count` more: one node, or two where a count overflows.
fn longer_run(alloc: Global, count: u32, more: u32, part: Rc<Bind>) -> Result<Bind, NoMemory>
    requires { 0 < count }
    ensures { IfOk result (λ above. tree_of above
        ≡ firsts count (First (firsts more (tree_of (rc_value part))))) }
{
    if more < u32::MAX - count {
        return Ok(Bind::First(more + count, part));
    }
    let first = Rc::new(alloc, Bind::First(more, part))?;
    Ok(Bind::First(count - 1, first))
}
