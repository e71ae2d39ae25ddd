ghost use Rattle.std.specs.Prelude.{◌≡◌, ◌<◌, ◌^◌};
ghost use Rattle.pattern_types.specs.Leaves.{leaves};

use crate::Pattern;

/// The number of leaves of a pattern. Linear in its size. Allocates nothing.
pub fn leaf_count(pattern: &Pattern) -> u32
    requires { leaves pattern.now < 2 ^ 32 }
    ensures { result ≡ leaves pattern.now }
{
    match pattern {
        Pattern::Leaf(_) => 1,
        Pattern::Both(left, right) | Pattern::Either(left, right) | Pattern::Then(left, right) =>
            leaf_count(left) + leaf_count(right),
        Pattern::Within(part, _) | Pattern::Between(part, _, _) | Pattern::Repeats(part, _) => {
            leaf_count(part)
        }
    }
}
