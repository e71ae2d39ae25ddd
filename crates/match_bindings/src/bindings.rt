ghost use Rattle.std.specs.Prelude.{◌≡◌, ◌<◌, ◌^◌, IfOk, map};
ghost use Rattle.pattern_types.specs.Leaves.{leaves};
ghost use Rattle.match_bindings.specs.NumberedPattern.{numbered_pattern};
ghost use Rattle.match_bindings.specs.BindTree.{tree_of};
ghost use Rattle.match_bindings.specs.Log.{observed_in};
ghost use Rattle.match_bindings.specs.Listing.{IsListing};
ghost use Rattle.match_bindings.specs.inner.Candidates.{spanned_trees, trees_of};

use crate::bounds::Bounds;
use crate::candidates::candidates;
use crate::order::in_order;
use crate::spanned_bind::SpannedBind;
use crate::{Bind, Log};
use flow_values::{Items, NoMemory};
use pattern_types::Pattern;
use std::alloc::Global;

/// All bindings of a pattern over a log, each once, by greatest number and then by flat list. It
/// enumerates all candidates, so it costs as much as there are partial bindings; `match_stream` is
/// the incremental matcher.
pub fn listing(alloc: Global, pattern: &Pattern, log: &Log) -> Result<Items<Bind>, NoMemory>
    requires { leaves pattern.now < 2 ^ 32 }
    ensures { IfOk result (λ binds. IsListing (observed_in log.now) (numbered_pattern pattern.now)
        (map tree_of binds)) }
{
    let held = candidates(alloc, pattern, 0, log, &Bounds::open())?;
    let binds = binds_of(alloc, held)?;
    let sorted = in_order(alloc, binds)?;
    Ok(Items::from_vec(sorted))
}

/// The bindings without their spans.
fn binds_of(alloc: Global, held: Vec<SpannedBind>) -> Result<Vec<Bind>, NoMemory>
    ensures { IfOk result (λ binds. map tree_of binds.items ≡ trees_of (spanned_trees held.items)) }
{
    let mut binds = Vec::new(alloc);
    for one in held {
        binds.push(one.bind)?;
    }
    Ok(binds)
}
