//! The inverted index itself: from a value at a path of a root to the brackets that ask for it.
//!
//! A query walks each path that some bracket has for the type of the root, and looks up the value
//! at its end by binary search. Each bracket has index keys, one of which is met wherever it holds.
//! So no bracket that holds is missed.

ghost use Rattle.std.specs.Prelude.{◌≡◌, ◌<◌, ◌^◌, ◌++◌, All, Contains, map, length, IfOk, OnOk};
ghost use Rattle.stix_bundles.specs.Objects.{data_in};
ghost use Rattle.stix_json.specs.DataOf.{data_of};
ghost use Rattle.stix_json.specs.Ordered.{IsOrdered};
ghost use Rattle.hunt_index.specs.declared.paths.Lookup.{Lookup};
ghost use Rattle.hunt_index.specs.inner.Indexed.{IsSeenFrom, IsSeen, IsPathEntryOfKind, IsFinderOf};
ghost use Rattle.hunt_index.specs.inner.Finding.{KeepsLookups, AreAsked, AsksFor, AsksByPath};
ghost use Rattle.hunt_index.specs.inner.Finding.{AskByPaths};
ghost use Rattle.hunt_index.specs.inner.Finding.{AddsOnly, IsSeenBy, AreSeen, FindsPlaces};
ghost use Rattle.hunt_index.specs.inner.Finding.{AddsFound, AreKinds};

use crate::index_key::IndexKey;
use crate::key::{Key, key_in};
use crate::paths::{Lookup, group_by_path};
use crate::postings::postings_of;
use crate::table::Table;
use crate::walk::{kind_of, value_at_path};
use flow_values::NoMemory;
use match_comparisons::object_at;
use pattern_types::Leaf;
use std::alloc::Global;
use stix_bundles::Bundle;
use stix_json::Json;

/// The tables of an index.
#[derive(Drop)]
pub(crate) struct Finder<'p> {
    /// The numbers of the paths, by the type of the root.
    pub(crate) kinds: Table<&'p str, usize>,
    /// For each path number an index key with this path.
    pub(crate) paths: Vec<IndexKey<'p>>,
    /// The posting lists: brackets by what is looked up.
    pub(crate) brackets_found: Table<Lookup<'p>, u32>,
    /// The brackets without index keys: always candidates.
    pub(crate) unindexed: Vec<u32>,
}

impl<'p> Finder<'p> {
    /// The tables of these brackets. O(n log n) for n index keys.
    pub(crate) fn new(alloc: Global, brackets: &[&'p Leaf]) -> Result<Finder<'p>, NoMemory>
        requires { length brackets.now < 2 ^ 32 }
        ensures { IfOk result (IsFinderOf (map (λ leaf. leaf.now) brackets.now)) }
    {
        let postings = postings_of(alloc, brackets)?;
        let path_table = group_by_path(alloc, postings.indexed)?;
        let kinds = kinds_of(alloc, path_table.paths.as_slice())?;
        Ok(Finder {
            kinds: Table::new(kinds),
            paths: path_table.paths,
            brackets_found: Table::new(path_table.entries),
            unindexed: postings.unindexed,
        })
    }

    /// The brackets with an index key that one of the roots meets, and those without index keys.
    pub(crate) fn candidates_for(
        &self,
        alloc: Global,
        bundle: &Bundle,
        roots: &[u32],
    ) -> Result<Vec<u32>, NoMemory>
        requires { All (IsPathEntryOfKind self.now.paths.items) self.now.kinds.entries.items }
        ensures { IfOk result (λ brackets_found. FindsPlaces self.now
            (data_in bundle.now) roots.now brackets_found.items) }
    {
        let lookups = self.lookups(alloc, bundle, roots)?;
        let mut brackets_found = Vec::from_slice(alloc, self.unindexed.as_slice())?;
        self.add_found(lookups.as_slice(), &mut brackets_found)?;
        Ok(brackets_found)
    }

    /// Appends the brackets found by these look-ups.
    fn add_found(
        &self,
        lookups: &[Lookup<'_>],
        brackets_found: &mut Vec<u32>,
    ) -> Result<(), NoMemory>
        ensures { OnOk result (AddsFound self.now.brackets_found.entries.items lookups.now
            brackets_found.old.items brackets_found.new.items) }
    {
        for lookup in lookups {
            add_brackets(self.brackets_found.find(lookup), brackets_found)?;
        }
        Ok(())
    }

    /// The look-ups for some roots, each once.
    fn lookups<'b>(
        &self,
        alloc: Global,
        bundle: &'b Bundle,
        roots: &[u32],
    ) -> Result<Vec<Lookup<'b>>, NoMemory>
        requires { All (IsPathEntryOfKind self.now.paths.items) self.now.kinds.entries.items }
        ensures asks { IfOk result (λ lookups. AreAsked self.now (data_in bundle.now) roots.now
            lookups.items) }
        ensures seen { IfOk result (λ lookups. AreSeen self.now.paths.items
            (data_in bundle.now) roots.now lookups.items) }
    {
        let mut lookups = Vec::new(alloc);
        for root in roots {
            self.add_lookups(bundle, *root, &mut lookups)?;
        }
        Ok(dedup_lookups(lookups))
    }

    /// Appends the look-ups for a root: along each path for its type, the value there.
    fn add_lookups<'b>(
        &self,
        bundle: &'b Bundle,
        root: u32,
        lookups: &mut Vec<Lookup<'b>>,
    ) -> Result<(), NoMemory>
        requires { All (IsPathEntryOfKind self.now.paths.items) self.now.kinds.entries.items }
        ensures keeps { OnOk result (KeepsLookups lookups.old.items lookups.new.items) }
        ensures asks { OnOk result (AsksFor self.now (data_in bundle.now) root lookups.new.items) }
        // Nothing else is looked up: needed for definite brackets.
        ensures only { OnOk result (AddsOnly
            (IsSeen self.now.paths.items (data_in bundle.now) root) lookups.old.items
            lookups.new.items) }
    {
        let Some(object) = object_at(bundle, root) else {
            return Ok(());
        };
        let Some(kind) = kind_of(object) else {
            return Ok(());
        };
        let paths = self.kinds.find(&kind);
        self.add_by_paths(bundle, object, paths, lookups)
    }

    /// Appends the look-ups along some paths.
    fn add_by_paths<'b>(
        &self,
        bundle: &'b Bundle,
        object: &'b Json,
        paths: &[(&str, usize)],
        lookups: &mut Vec<Lookup<'b>>,
    ) -> Result<(), NoMemory>
        requires { IsOrdered (data_of object.now) }
        ensures keeps { OnOk result (KeepsLookups lookups.old.items lookups.new.items) }
        ensures asks { OnOk result (AskByPaths self.now.paths.items (data_in bundle.now)
            (data_of object.now) paths.now lookups.new.items) }
        ensures only { OnOk result (AddsOnly
            (IsSeenBy self.now.paths.items (data_in bundle.now) (data_of object.now) paths.now)
            lookups.old.items lookups.new.items) }
    {
        for (_, number) in paths {
            self.add_by_path(bundle, object, *number, lookups)?;
        }
        Ok(())
    }

    /// Appends the look-ups along one path, where it leads to a value: one for any value, and one
    /// for this value.
    fn add_by_path<'b>(
        &self,
        bundle: &'b Bundle,
        object: &'b Json,
        path: usize,
        lookups: &mut Vec<Lookup<'b>>,
    ) -> Result<(), NoMemory>
        requires { IsOrdered (data_of object.now) }
        ensures keeps { OnOk result (KeepsLookups lookups.old.items lookups.new.items) }
        ensures asks { OnOk result (AsksByPath self.now.paths.items (data_in bundle.now)
            (data_of object.now) path lookups.new.items) }
        ensures only { OnOk result (AddsOnly (λ lookup. (lookup.path ≡ path)
            × IsSeenFrom self.now.paths.items (data_in bundle.now) (data_of object.now) lookup)
            lookups.old.items lookups.new.items) }
    {
        let Some(index_key) = self.paths.get(path) else {
            return Ok(());
        };
        let Some(value) = value_at_path(bundle, object, index_key.steps) else {
            return Ok(());
        };
        lookups.push(Lookup {
            path,
            key: Key::Any,
        })?;
        if let Some(key) = key_in(value) {
            lookups.push(Lookup { path, key })?;
        }
        Ok(())
    }
}

/// The look-ups without duplicates.
fn dedup_lookups(mut lookups: Vec<Lookup<'_>>) -> Vec<Lookup<'_>>
    ensures keeps { KeepsLookups lookups.entry.items result.items }
    ensures only { (lookup : Lookup) → Contains result.items lookup
        → Contains lookups.entry.items lookup }
{
    lookups.sort_unstable();
    lookups.dedup();
    lookups
}

/// Appends the brackets of some entries.
fn add_brackets(
    entries: &[(Lookup<'_>, u32)],
    brackets_found: &mut Vec<u32>,
) -> Result<(), NoMemory>
    ensures { OnOk result (brackets_found.new.items ≡ brackets_found.old.items
        ++ map (λ entry. entry.1) entries.now) }
{
    for (_, bracket) in entries {
        brackets_found.push(*bracket)?;
    }
    Ok(())
}

/// The numbers of the paths, by the type of the root.
fn kinds_of<'p>(alloc: Global, paths: &[IndexKey<'p>]) -> Result<Vec<(&'p str, usize)>, NoMemory>
    ensures all { IfOk result (λ kinds. AreKinds paths.now kinds.items) }
    ensures only { IfOk result (λ kinds. All (IsPathEntryOfKind paths.now) kinds.items) }
{
    let mut kinds = Vec::with_capacity(alloc, paths.len())?;
    for (number, path) in paths.iter().enumerate() {
        kinds.push((path.kind, number))?;
    }
    Ok(kinds)
}
