ghost use Rattle.std.specs.Prelude.{◌≤ℤ◌, nat_eq};
ghost use Rattle.std.specs.List.{IsDistinct};
ghost use Rattle.std.proofs.lemmas.Map.Keys.{IsDistinct-prop};
ghost use Rattle.match_bindings.specs.BindTree.{tree_of};
ghost use Rattle.match_pruning.specs.inner.Numbers.{numbers};

use match_bindings::Bind;
use stix_times::Instant;

/// A partial match: a binding of part of the pattern, in which no observation occurs twice, with
/// the earliest and the latest time of its observations.
#[derive(Drop)]
pub struct PartialMatch {
    pub bind: Bind,
    pub earliest: Instant,
    pub latest: Instant,
    ghost once: { IsDistinct nat_eq (numbers (tree_of bind)) } by { IsDistinct-prop nat_eq
        (numbers (tree_of bind)) },
    ghost span: { earliest ≤ℤ latest },
}
