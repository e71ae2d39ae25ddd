//! All patterns at one row: only those with a bracket that holds take it.

ghost use Rattle.std.specs.Prelude.{◌≡◌, ◌≢◌, ◌≤◌, ◌<◌, ◌+◌, ◌^◌, ◌++◌, ℕ, All, Err, Some, length};
ghost use Rattle.std.specs.Prelude.{map, slice_get, IfOk, OnOk};
ghost use Rattle.match_bindings.specs.BindTree.{tree_of};
ghost use Rattle.hunt_engine.specs.declared.brackets.BracketRange.{BracketRange};
ghost use Rattle.hunt_engine.specs.declared.refusal.EngineRefusal.TheVariants as refusal;
ghost use Rattle.hunt_engine.specs.inner.Following.{ContinuesRows};
ghost use Rattle.hunt_feed.specs.Indicators.{IsAscending};
ghost use Rattle.hunt_engine.specs.inner.Round.{AllFollow, TookSome, CrowdsAt, StillFollow};
ghost use Rattle.hunt_engine.specs.inner.Round.{found_of};

use crate::brackets::Brackets;
use crate::lazy_matcher::LazyMatcher;
use crate::next_row::NextRow;
use crate::refusal::LazyMatcherRefusal;
use crate::{EngineRefusal, Hit};
use flow_values::{Items, NoMemory};
use match_bindings::Bind;
use std::alloc::Global;

/// Gives the next row to the patterns at these indices, in order, each with the truths of its
/// brackets. Answers the bindings that end there.
pub(crate) fn take_all(
    alloc: Global,
    lazy_matchers: &mut [LazyMatcher<'_>],
    brackets: &Brackets<'_>,
    marks: &[bool],
    affected: &[u32],
    row: &NextRow,
    retained_limit: u64,
) -> Result<Items<Hit>, EngineRefusal>
    requires follow { AllFollow retained_limit row.now lazy_matchers.old }
    requires ascend { IsAscending affected.now }
    requires there { All (λ position. position < length lazy_matchers.old) affected.now }
    requires bracket_ranges { length brackets.now.bracket_ranges.items ≡ length lazy_matchers.old }
    requires inside { (position : ℕ) (bracket_range : BracketRange)
        → slice_get brackets.now.bracket_ranges.items position ≡ Some bracket_range
        → bracket_range.first + bracket_range.count ≤ length marks.now }
    requires room { row.now.rows + 1 < 2 ^ 63 }
    requires continues { ContinuesRows row.now }
    ensures took { IfOk result (TookSome row.now retained_limit brackets.now.bracket_ranges.items
        marks.now affected.now (length affected.now) lazy_matchers.old lazy_matchers.new) }
    ensures over_limit { (position number named : ℕ)
        → result ≡ Err (refusal.OverLimit position number named)
        → CrowdsAt row.now retained_limit brackets.now.bracket_ranges.items marks.now affected.now
        lazy_matchers.old position number named }
    ensures no_end { result ≢ Err refusal.Ended }
{
    let mut found = Vec::new(alloc);
    for position in affected {
        let at = *position as usize;
        let truths = brackets.truths(at, marks);
        match lazy_matchers[at].take(alloc, row, retained_limit, truths) {
            Ok(binds) => add_found(&mut found, *position, binds)?,
            Err(LazyMatcherRefusal::OverLimit) => {
                return Err(EngineRefusal::OverLimit {
                    hunted: *position,
                    number: row.rows + 1,
                    retained_limit,
                });
            }
            Err(LazyMatcherRefusal::NoMemory) => return Err(EngineRefusal::NoMemory),
        }
    }
    Ok(Items::from_vec(found))
}

/// Appends the bindings of one pattern.
fn add_found(found: &mut Vec<Hit>, position: u32, binds: Items<Bind>) -> Result<(), NoMemory>
    ensures { OnOk result (found.new.items ≡ found.old.items ++ map (found_of position) binds) }
{
    for bind in binds.into_vec() {
        found.push(Hit {
            hunted: position,
            bind,
        })?;
    }
    Ok(())
}

/// Lets the next matcher of the sweep pass the rows that it missed, so that it drops what has
/// expired. Answers the next position of the sweep.
pub(crate) fn sweep(
    lazy_matchers: &mut [LazyMatcher<'_>],
    sweep_order: &[u32],
    sweep_position: usize,
    row: &NextRow,
    retained_limit: u64,
) -> Result<usize, NoMemory>
    requires follow { AllFollow retained_limit row.now lazy_matchers.old }
    requires room { row.now.rows < 2 ^ 63 }
    // Each pattern still follows its log: the sweep only frees memory.
    ensures { OnOk result (StillFollow retained_limit row.now.rows row.now.before lazy_matchers.old
        lazy_matchers.new) }
{
    let Some(position) = sweep_order.get(sweep_position) else {
        return Ok(0);
    };
    let at = *position as usize;
    if at >= lazy_matchers.len() {
        return Ok(0);
    }
    lazy_matchers[at].catch_up(row.rows, row.before, retained_limit)?;
    Ok(sweep_position + 1)
}
