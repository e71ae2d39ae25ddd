//! The observation numbers that bindings contain.

ghost use Rattle.std.specs.Prelude.{◌≡◌, ◌++◌, ℕ, true, false, IfOk, OnOk, map};
ghost use Rattle.std.specs.List.{Contains};
ghost use Rattle.match_bindings.specs.BindTree.{tree_of, many_of};
ghost use Rattle.match_pruning.specs.inner.Numbers.{numbers};

use flow_values::NoMemory;
use match_bindings::Bind;
use std::alloc::Global;

/// The observation numbers of a binding, from left to right.
pub fn numbers_of(alloc: Global, bind: &Bind) -> Result<Vec<u64>, NoMemory>
    ensures { IfOk result (λ all. all.items ≡ numbers (tree_of bind.now)) }
{
    let mut all = Vec::new(alloc);
    push_numbers(bind, &mut all)?;
    Ok(all)
}

/// Appends the numbers of a binding.
#[cycle(numbers)]
pub fn push_numbers(bind: &Bind, out: &mut Vec<u64>) -> Result<(), NoMemory>
    ensures { OnOk result (out.new.items ≡ out.old.items ++ numbers (tree_of bind.now)) }
{
    match bind {
        Bind::One(number) => out.push(*number)?,
        Bind::Both(sides) => {
            push_numbers(&sides.0, out)?;
            push_numbers(&sides.1, out)?;
        }
        Bind::First(_, part) | Bind::Second(part) => push_numbers(part, out)?,
        Bind::Many(parts) => push_all_numbers(parts.as_slice(), out)?,
    }
    Ok(())
}

/// Appends the numbers of each binding.
#[cycle(numbers)]
fn push_all_numbers(binds: &[Bind], out: &mut Vec<u64>) -> Result<(), NoMemory>
    ensures { OnOk result (out.new.items ≡ out.old.items
        ++ numbers (many_of (map tree_of binds.now))) }
{
    for bind in binds {
        push_numbers(bind, out)?;
    }
    Ok(())
}

/// Whether two lists of numbers intersect. O(n m).
pub fn share_number(numbers: &[u64], others: &[u64]) -> bool
    ensures some { result ≡ true → (n : ℕ) × Contains numbers.now n × Contains others.now n }
    ensures none { result ≡ false → (n : ℕ) → Contains others.now n → ¬ (Contains numbers.now n) }
{
    for number in others {
        if numbers.contains(number) {
            return true;
        }
    }
    false
}

/// Sorts the numbers and removes duplicates.
pub fn sort_dedup(numbers: &mut Vec<u64>)
    ensures { (n : ℕ) → Contains numbers.old.items n → Contains numbers.new.items n }
{
    numbers.sort_unstable();
    numbers.dedup();
}
