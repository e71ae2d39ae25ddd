ghost use Rattle.std.specs.Prelude.{◌↔◌, ◌⊎◌, ℕ, [], Contains, IfOk, OnOk};
ghost use Rattle.match_comparisons.specs.inner.PositionSet.{AreOf};
ghost use Rattle.match_comparisons.specs.inner.Roots.{IsSomeRoot};

use crate::position_set::PositionSet;
use flow_values::NoMemory;
use std::alloc::Global;
use stix_bundles::Observation;

/// The roots of some observations, each once.
pub(crate) fn roots_of(alloc: Global, observations: &[Observation]) -> Result<Vec<u32>, NoMemory>
    ensures { IfOk result (λ roots. (at : ℕ) → Contains roots.items at
        ↔ IsSomeRoot observations.now at) }
{
    let mut seen = PositionSet::new(alloc);
    let mut roots = Vec::new(alloc);
    for observation in observations {
        add_roots(observation.roots.as_slice(), &mut seen, &mut roots)?;
    }
    Ok(roots)
}

/// The roots of one observation, each once.
pub(crate) fn own_roots(alloc: Global, observation: &Observation) -> Result<Vec<u32>, NoMemory>
    ensures { IfOk result (λ roots. (at : ℕ) → Contains roots.items at
        ↔ Contains observation.now.roots at) }
{
    let mut seen = PositionSet::new(alloc);
    let mut roots = Vec::new(alloc);
    add_roots(observation.roots.as_slice(), &mut seen, &mut roots)?;
    Ok(roots)
}

/// Appends the roots of one observation that aren't in the list yet.
fn add_roots(own: &[u32], seen: &mut PositionSet, roots: &mut Vec<u32>) -> Result<(), NoMemory>
    requires { AreOf roots.old.items seen.old }
    ensures same { OnOk result (AreOf roots.new.items seen.new) }
    ensures added { OnOk result ((at : ℕ) → Contains roots.new.items at
        ↔ (Contains roots.old.items at ⊎ Contains own.now at)) }
{
    for at in own {
        if seen.add(*at)? {
            roots.push(*at)?;
        }
    }
    Ok(())
}
