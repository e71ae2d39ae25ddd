ghost use Rattle.std.specs.Prelude.{[], ◌∷◌, ◌++◌, IfOk};
ghost use Rattle.pattern_reader.specs.inner.Analysis.{IsJoined};

use crate::ValueRefusal;
use crate::order::first_of_two;
use flow_values::{Items, NoMemory};

/// Both values, or the first refusal.
pub(crate) fn both<A: Drop, B: Drop>(
    a: Result<A, ValueRefusal>,
    b: Result<B, ValueRefusal>,
) -> Result<(A, B), ValueRefusal>
    ensures { IsJoined (λ x y. (x, y)) a b result }
{
    match (a, b) {
        (Ok(a), Ok(b)) => Ok((a, b)),
        (Ok(_), Err(refusal)) => Err(refusal),
        (Err(refusal), Ok(_)) => Err(refusal),
        (Err(a), Err(b)) => Err(first_of_two(a, b)),
    }
}

/// The items with one more, or the first refusal.
pub(crate) fn with_next<T: Drop>(
    items: Result<Items<T>, ValueRefusal>,
    next: Result<T, ValueRefusal>,
) -> Result<Result<Items<T>, ValueRefusal>, NoMemory>
    ensures { IfOk result (IsJoined (λ xs x. xs ++ x ∷ []) items next) }
{
    match both(items, next) {
        Ok((mut items, next)) => {
            items.push(next)?;
            Ok(Ok(items))
        }
        Err(refusal) => Ok(Err(refusal)),
    }
}
