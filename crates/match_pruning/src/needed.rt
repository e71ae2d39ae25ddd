//! Whether a new partial match is needed: an exact test, by backtracking with two proved shortcuts.
//!
//! Inside the right side of a `FOLLOWEDBY` most new partial matches have no use. No stored left
//! operand precedes them, and none ever will, since later rows end no earlier than now. Dropping
//! them keeps the stores small. The exact test is a depth-first search over the left operands,
//! exponential in the nesting of `FOLLOWEDBY`s. So it first tries `GreedyCompletion`, which proves
//! "needed", and `CompletionBound`, which proves "not needed". Both are linear, and the search
//! decides the rest. All three skip what begins too late to precede.

ghost use Rattle.std.specs.Prelude.{◌≡◌, IfOk};
ghost use Rattle.match_pruning.specs.inner.PartialMatches.{partial_match_tree};
ghost use Rattle.match_pruning.specs.inner.Needed.{is_needed};
ghost use Rattle.match_pruning.specs.inner.PendingLefts.{pending_lefts_of};

use crate::completion_bound::CompletionBound;
use crate::greedy_completion::GreedyCompletion;
use crate::join::Join;
use crate::partial_match::PartialMatch;
use crate::pending_left::PendingLeft;
use crate::store::is_retained;
use flow_values::NoMemory;
use std::alloc::Global;
use stix_times::Instant;

/// Whether a new partial match is needed: the store of its side retains it, or a stored left
/// operand joins it to one that is needed further out. The innermost `FOLLOWEDBY` is the last of
/// `pending_lefts`. Outside of all `FOLLOWEDBY`s everything is needed.
pub fn is_needed(
    alloc: Global,
    partial_match: &PartialMatch,
    now: Instant,
    pending_lefts: &[PendingLeft],
) -> Result<bool, NoMemory>
    ensures { IfOk result (λ needed. needed
        ≡ is_needed now (pending_lefts_of pending_lefts.now)
        (partial_match_tree partial_match.now)) }
{
    let Some((innermost, above)) = pending_lefts.split_last() else {
        return Ok(true);
    };
    if is_retained(&innermost.window, partial_match.earliest, now) {
        return Ok(true);
    }
    if !above.is_empty() {
        if GreedyCompletion::new(alloc, partial_match)?.continues(now, pending_lefts)? {
            return Ok(true);
        }
        if !CompletionBound::new(alloc, partial_match).may_continue(
            alloc,
            partial_match,
            now,
            pending_lefts,
        )? {
            return Ok(false);
        }
    }
    let mut end = innermost.left.held.len();
    while let Some(at) = innermost.left.last_begun(end, partial_match.earliest) {
        let left = &innermost.left.held[at];
        if Join::Then.may_join(left, partial_match) {
            let longer = Join::Then.joined(alloc, left, partial_match)?;
            let is = is_needed(alloc, &longer, now, above);
            drop(longer);
            if is? {
                return Ok(true);
            }
        }
        end = at;
    }
    Ok(false)
}
