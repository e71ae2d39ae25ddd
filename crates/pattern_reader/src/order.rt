//! The order of refusals: by byte offset, then by rank. It is total on the refusals of one text, so
//! the first one is unique.

ghost use Rattle.std.specs.Prelude.{◌≡◌, IsTrue, IsFalse};
ghost use Rattle.pattern_reader.specs.ValueRefusal.{rank_of, Precedes};
ghost use Rattle.pattern_reader.specs.inner.Analysis.{IsFirstOfTwo};

use crate::ValueRefusal;

/// The rank of a refusal among those at one offset: the lowest comes first.
fn rank(refusal: ValueRefusal) -> usize
    ensures { result ≡ rank_of refusal }
{
    match refusal {
        ValueRefusal::LongPath { .. } => 0,
        ValueRefusal::NoCommonRoot { .. } => 1,
        ValueRefusal::EmptySpan { .. } => 2,
        ValueRefusal::BadCount { .. } => 3,
        ValueRefusal::BadAddress { .. } => 4,
        ValueRefusal::NoValue { .. } => 5,
    }
}

/// Whether the first refusal precedes the second.
fn precedes(a: ValueRefusal, b: ValueRefusal) -> bool
    ensures yes { IsTrue result → Precedes a b }
    ensures no { IsFalse result → Precedes b a }
{
    a.at() < b.at() || a.at() == b.at() && rank(a) <= rank(b)
}

/// The first of two refusals, by offset and then by rank.
pub(crate) fn first_of_two(a: ValueRefusal, b: ValueRefusal) -> ValueRefusal
    ensures { IsFirstOfTwo a b result }
{
    if precedes(a, b) { a } else { b }
}
