ghost use Rattle.std.specs.Prelude.{IfOk};
ghost use Rattle.stix_bundles.specs.Objects.{data_in};
ghost use Rattle.pattern_types.specs.PlainPattern.{plain_pattern};
ghost use Rattle.pattern_types.specs.Soundness.{IsSoundPattern};
ghost use Rattle.match_comparisons.specs.Truths.{AreTruthsOfEach};

use crate::roots::roots_of;
use crate::rows::{BundleView, add_truths};
use flow_values::{Items, NoMemory};
use pattern_types::Pattern;
use std::alloc::Global;
use stix_bundles::{Bundle, Observation};

/// For each observation of a bundle: whether each bracket of a pattern holds, from left to right.
/// Findings at an object serve all observations, so a test costs at most the size of the bundle for
/// each of its steps.
pub fn leaf_truths(
    alloc: Global,
    pattern: &Pattern,
    observations: &[Observation],
    bundle: &Bundle,
) -> Result<Items<Items<bool>>, NoMemory>
    requires { IsSoundPattern (plain_pattern pattern.now) }
    ensures { IfOk result (AreTruthsOfEach (data_in bundle.now) observations.now
        (plain_pattern pattern.now)) }
{
    let roots = roots_of(alloc, observations)?;
    let seen = BundleView {
        bundle,
        observations,
        roots: roots.as_slice(),
    };
    let mut rows = Vec::with_capacity(alloc, observations.len())?;
    for _ in observations {
        rows.push(Items::new(alloc))?;
    }
    add_truths(alloc, pattern, &seen, rows.as_mut_slice())?;
    Ok(Items::from_vec(rows))
}
