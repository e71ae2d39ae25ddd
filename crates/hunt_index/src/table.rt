//! A sorted table: a multimap as a sorted vector, with look-up by binary search.
//!
//! The vector is sorted by key once, so the entries of one key are adjacent. Two binary searches
//! find the ends of their range. It takes less memory than a tree, and never changes after it is
//! built.

ghost use Rattle.std.specs.Prelude.{◌≡◌, Contains};
ghost use Rattle.std.specs.List.Sorted.{IsPermutation, IsSortedByKey};
ghost use Rattle.std.specs.declared.cmp.Ordering.TheVariants.{Equal};

/// A multimap from keys to values.
#[derive(Drop)]
pub(crate) struct Table<K: Ord, V> {
    entries: Vec<(K, V)>,
    ghost sorted: { IsSortedByKey (λ entry. entry.0) K.cmp entries.items },
}

impl<K: Ord + Drop, V: Drop> Table<K, V> {
    /// The table of these entries. O(n log n).
    pub(crate) fn new(mut entries: Vec<(K, V)>) -> Table<K, V>
        ensures { IsPermutation entries.items result.entries.items }
    {
        entries.sort_unstable_by(|one, other| one.0.cmp(&other.0));
        Table { entries }
    }

    /// The entries with this key. O(log n).
    pub(crate) fn find(&self, key: &K) -> &[(K, V)]
        ensures all { (own : K) (value : V) → K.cmp own key.now ≡ Equal
            → Contains self.now.entries.items (own, value) → Contains result.now (own, value) }
        ensures only { (entry : K × V) → Contains result.now entry
            → Contains self.now.entries.items entry }
        ensures keyed { (entry : K × V) → Contains result.now entry
            → K.cmp entry.0 key.now ≡ Equal }
    {
        let from = self
            .entries
            .partition_point(|entry| entry.0.cmp(key).is_lt());
        let rest = &self.entries[from..];
        let count = rest.partition_point(|entry| entry.0.cmp(key).is_le());
        &rest[..count]
    }
}
