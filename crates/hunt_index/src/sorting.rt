ghost use Rattle.std.specs.Prelude.{◌↔◌, ℕ, Contains};
ghost use Rattle.std.specs.List.Sorted.{IsStrictlyIncreasing};

/// The numbers in ascending order, each once.
pub(crate) fn sort_dedup(mut numbers: Vec<u32>) -> Vec<u32>
    ensures ascend { IsStrictlyIncreasing result.items }
    ensures same { (n : ℕ) → Contains result.items n ↔ Contains numbers.items n }
{
    numbers.sort_unstable();
    numbers.dedup();
    numbers
}
