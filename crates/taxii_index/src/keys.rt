ghost use Rattle.std.specs.Prelude.{◌≡◌, ℕ, [], ◌∷◌, ◌++◌, List, OnOk, OnErr};
ghost use Rattle.std.specs.List.{Contains};
ghost use Rattle.std.specs.declared.ops.Bound.TheVariants.{Included, Excluded};
ghost use Rattle.std.specs.BTreeSet.{keys_between, IsOrdered};
ghost use Rattle.taxii_rows.specs.StoreState.{AscendFrom};
ghost use Rattle.taxii_index.specs.Keys.{Key as KeyValue, IsIn64Bits, HasKeys, HasKeysBut};
ghost use Rattle.taxii_index.specs.Keys.{IsUniqueIn, key_cmp};

use crate::dates::is_among;
use flow_values::NoMemory;
use std::alloc::Global;
use std::collections::BTreeSet;
use std::collections::btree_set::{Iter, Range};
use std::ops::Bound;

/// A hash, a version (or 0), and the date of a row. Ordered lexicographically.
pub(crate) type Key = (u64, i64, u64);

/// An ordered set of keys (B-tree): by hash, then by version, then by date.
#[derive(Drop)]
pub(crate) struct Keys {
    keys: BTreeSet<Key, Global>,
}

impl Keys {
    /// The empty set. Allocates nothing.
    pub(crate) fn new(alloc: Global) -> Keys
        ensures { HasKeys [] result.keys }
    {
        Keys {
            keys: BTreeSet::new(alloc),
        }
    }

    /// The set with these keys.
    pub(crate) fn of(keys: BTreeSet<Key, Global>) -> Keys
        ensures { result.keys ≡ keys }
    {
        Keys { keys }
    }

    /// All keys in order.
    pub(crate) fn iter(&self) -> Iter<'_, Key> {
        self.keys.iter()
    }

    /// Adds a key. When out of memory, the set is unchanged.
    pub(crate) fn insert(&mut self, key: Key) -> Result<(), NoMemory>
        ensures ok { (keys : List KeyValue) → HasKeys keys self.old.keys
            → OnOk result (HasKeys (keys ++ key ∷ []) self.new.keys) }
        ensures err { (keys : List KeyValue) → HasKeys keys self.old.keys
            → OnErr result (HasKeys keys self.new.keys) }
        ensures bits { IsIn64Bits key }
    {
        self.keys.insert(key)?;
        Ok(())
    }

    /// Removes a key. Allocates nothing; nor do the calls below.
    pub(crate) fn remove(&mut self, key: Key)
        ensures { (keys : List KeyValue) → ¬ Contains keys key
            → HasKeys (keys ++ key ∷ []) self.old.keys → HasKeys keys self.new.keys }
    {
        self.keys.remove(&key);
    }

    /// Removes a key that is the only one with its date.
    pub(crate) fn remove_one(&mut self, key: Key)
        ensures { (dates : List ℕ) (keys : List KeyValue) → IsUniqueIn keys key
            → HasKeysBut dates keys self.old.keys
            → HasKeysBut (dates ++ key.2 ∷ []) keys self.new.keys }
    {
        self.keys.remove(&key);
    }

    /// Removes the keys of these dates, by a scan of all.
    pub(crate) fn remove_dates(&mut self, dates: &[u64])
        requires { AscendFrom 0 dates.now }
        ensures { (keys : List KeyValue) → HasKeys keys self.old.keys
            → HasKeysBut dates.now keys self.new.keys }
    {
        self.keys.retain(|key| !is_among(dates, key.2));
    }

    /// The keys with this hash and version, by date.
    pub(crate) fn of_number(&self, name: u64, number: i64) -> Range<'_, Key>
        ensures keys { result
            ≡ keys_between key_cmp (Included (name, number, 0))
            (Included (name, number, u64.MAX)) self.now.keys }
        ensures ordered { IsOrdered key_cmp self.now.keys }
    {
        self.keys
            .range((name, number, 0)..=(name, number, u64::MAX))
    }

    /// The keys with the same hash after this key.
    pub(crate) fn after(&self, key: Key) -> Range<'_, Key>
        ensures { result ≡ keys_between key_cmp (Excluded key)
            (Included (key.0, i64.MAX, u64.MAX)) self.now.keys }
    {
        let last = (key.0, i64::MAX, u64::MAX);
        self.keys
            .range((Bound::Excluded(key), Bound::Included(last)))
    }

    /// The keys with the same hash before this key.
    pub(crate) fn before(&self, key: Key) -> Range<'_, Key>
        ensures { result ≡ keys_between key_cmp (Included (key.0, i64.MIN, 0))
            (Excluded key) self.now.keys }
    {
        let first = (key.0, i64::MIN, 0);
        self.keys
            .range((Bound::Included(first), Bound::Excluded(key)))
    }
}
