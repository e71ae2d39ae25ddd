//! The windows of a pattern's stores.

ghost use Rattle.std.specs.Prelude.{◌≡◌, false, [], ◌∷◌, ◌++◌, ℕ, IfOk, OnOk};
ghost use Rattle.match_bindings.specs.NumberedPattern.{NumberedPattern, numbered_pattern};
ghost use Rattle.match_bindings.specs.NumberedPattern.{numbered_from};
ghost use Rattle.match_pruning.specs.Stores.{window_of, stores_of, stores_under, levels};
ghost use Rattle.match_pruning.specs.Stores.{windows_in};

use flow_values::{Items, NoMemory};
use match_bindings::Bounds;
use pattern_types::Pattern;
use std::alloc::Global;
use stix_times::Instant;

/// The window of a store: the limits of all qualifiers above it, and whether it is the right side
/// of a `FOLLOWEDBY`.
#[derive(Clone, Copy, Debug, PartialEq, Eq)]
pub struct Window {
    /// The smallest number of seconds of a `WITHIN` above, if any.
    pub seconds: Option<u32>,
    /// The latest `START` above, if any.
    pub start: Option<Instant>,
    /// The earliest `STOP` above, if any.
    pub stop: Option<Instant>,
    /// Whether what is stored here has to follow the left side.
    pub after_left: bool,
}

/// The windows of the stores of a pattern, in preorder: a part's own stores before those of its
/// parts, the left side first, the levels of a `REPEATS` ascending.
pub fn windows(alloc: Global, pattern: &Pattern) -> Result<Items<Window>, NoMemory>
    ensures { IfOk result (λ windows. windows
        ≡ windows_in (stores_of (numbered_pattern pattern.now))) }
{
    let mut windows = Vec::new(alloc);
    add_windows(pattern, &Bounds::open(), &mut windows)?;
    Ok(Items::from_vec(windows))
}

/// Appends the windows of the stores of a part within these limits.
#[tactic(auto, using(crate::proofs::StoresLemmas::two_sides))]
fn add_windows(pattern: &Pattern, above: &Bounds, out: &mut Vec<Window>) -> Result<(), NoMemory>
    ensures { (first : ℕ) → OnOk result (out.new.items ≡ out.old.items
        ++ windows_in (stores_under above.now (numbered_from first pattern.now))) }
{
    match pattern {
        Pattern::Leaf(_) => Ok(()),
        Pattern::Both(left, right) => {
            add_sides(above, false, out)?;
            add_windows(left, above, out)?;
            add_windows(right, above, out)
        }
        Pattern::Then(left, right) => {
            add_sides(above, true, out)?;
            add_windows(left, above, out)?;
            add_windows(right, above, out)
        }
        Pattern::Either(left, right) => {
            add_windows(left, above, out)?;
            add_windows(right, above, out)
        }
        Pattern::Within(part, seconds) => add_windows(part, &above.within(*seconds), out),
        Pattern::Between(part, start, stop) => {
            add_windows(part, &above.between(*start, *stop), out)
        }
        Pattern::Repeats(part, count) => {
            add_levels(above, *count, out)?;
            add_windows(part, above, out)
        }
    }
}

/// Appends the windows of the sides of an `AND` or a `FOLLOWEDBY`.
fn add_sides(above: &Bounds, after_left: bool, out: &mut Vec<Window>) -> Result<(), NoMemory>
    ensures { OnOk result (out.new.items ≡ out.old.items ++ window_of above.now false
        ∷ window_of above.now after_left ∷ []) }
{
    add_window(above, false, out)?;
    add_window(above, after_left, out)
}

/// Appends the windows of the levels of a `REPEATS`.
fn add_levels(above: &Bounds, count: u32, out: &mut Vec<Window>) -> Result<(), NoMemory>
    ensures { (part : NumberedPattern)
        → OnOk result (out.new.items ≡ out.old.items ++ windows_in (levels above.now part count)) }
{
    for level in 1..count {
        let _ = level;
        add_window(above, false, out)?;
    }
    Ok(())
}

/// Appends the window of one store.
fn add_window(above: &Bounds, after_left: bool, out: &mut Vec<Window>) -> Result<(), NoMemory>
    ensures { OnOk result (out.new.items ≡ out.old.items ++ window_of above.now after_left ∷ []) }
{
    out.push(Window {
        seconds: above.seconds,
        start: above.start,
        stop: above.stop,
        after_left,
    })?;
    Ok(())
}
