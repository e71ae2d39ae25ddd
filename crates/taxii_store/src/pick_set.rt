ghost use Rattle.std.specs.Prelude.{List, [], ◌∷◌, ◌++◌, ◌↔◌, IsTrue, IfOk, OnOk};
ghost use Rattle.std.specs.List.{Contains};
ghost use Rattle.stix_ids.specs.declared.pick.Pick.{Pick as Picked};
ghost use Rattle.stix_ids.specs.declared.pick.Pick.TheVariants.{At, Last as LastOne};
ghost use Rattle.stix_ids.specs.declared.pick.Pick.TheVariants.{First as FirstOne};
ghost use Rattle.taxii_rows.specs.Picking.{IsPicked, IsPickedBy};
ghost use Rattle.taxii_store.specs.Picks.{HasPicks, SelectsRow, SelectsEnd};

use crate::Library;
use flow_values::NoMemory;
use std::alloc::Global;
use std::collections::BTreeSet;
use stix_ids::Pick;
use taxii_rows::StoredRow;

/// A set of version filters (`match[version]`).
#[derive(Drop)]
pub struct PickSet {
    all: bool,
    last: bool,
    first: bool,
    versions: BTreeSet<i64, Global>,
}

impl PickSet {
    /// The set of a list of filters.
    pub fn of(alloc: Global, picks: &[Pick]) -> Result<PickSet, NoMemory>
        ensures { IfOk result (HasPicks picks.now) }
    {
        let mut set = PickSet::empty(alloc);
        for pick in picks {
            set.insert(*pick)?;
        }
        Ok(set)
    }

    /// The empty set.
    fn empty(alloc: Global) -> PickSet
        ensures { HasPicks [] result }
    {
        PickSet {
            all: false,
            last: false,
            first: false,
            versions: BTreeSet::new(alloc),
        }
    }

    /// Adds a filter.
    fn insert(&mut self, pick: Pick) -> Result<(), NoMemory>
        ensures { (picks : List Picked) → HasPicks picks self.old
            → OnOk result (HasPicks (picks ++ pick ∷ []) self.new) }
    {
        match pick {
            Pick::All => self.all = true,
            Pick::Last => self.last = true,
            Pick::First => self.first = true,
            Pick::At(version) => self.insert_version(version)?,
        }
        Ok(())
    }

    fn insert_version(&mut self, version: i64) -> Result<(), NoMemory>
        ensures { (picks : List Picked) → HasPicks picks self.old
            → OnOk result (HasPicks (picks ++ At version ∷ []) self.new) }
    {
        self.versions.insert(version)?;
        Ok(())
    }

    /// Whether one of the filters selects a row of the library among the rows of its object.
    /// Allocates nothing; nor do the calls below.
    pub fn selects(&self, library: &Library, row: &StoredRow) -> bool
        requires { Contains library.now.rows row.now }
        ensures { (picks : List Picked) → HasPicks picks self.now
            → IsTrue result ↔ IsPicked picks library.now.rows row.now }
    {
        self.selects_one(library, row)
    }

    /// Whether one of the filters may select the row at this position of the library. No selected
    /// row is missed. O(1), without a lookup among the rows.
    pub fn may_select(&self, library: &Library, place: usize, row: &StoredRow) -> bool
        requires { Contains library.now.rows row.now }
        ensures { (picks : List Picked) → HasPicks picks self.now
            → IsPicked picks library.now.rows row.now → IsTrue result }
    {
        self.may_select_one(library, place, row)
    }

    fn selects_one(&self, library: &Library, row: &StoredRow) -> bool
        requires { Contains library.now.rows row.now }
        ensures { IsTrue result ↔ SelectsRow self.now library.now.rows row.now }
    {
        self.all || self.versions.contains(&row.version) || self.selects_end(library, row)
    }

    fn may_select_one(&self, library: &Library, place: usize, row: &StoredRow) -> bool
        requires { Contains library.now.rows row.now }
        ensures { SelectsRow self.now library.now.rows row.now → IsTrue result }
    {
        self.all || self.versions.contains(&row.version) || self.may_select_end(library, place, row)
    }

    fn may_select_end(&self, library: &Library, place: usize, row: &StoredRow) -> bool
        requires { Contains library.now.rows row.now }
        ensures { SelectsEnd self.now library.now.rows row.now → IsTrue result }
    {
        self.last && library.may_be_last(place, row)
            || self.first && library.may_be_first(place, row)
    }

    fn selects_end(&self, library: &Library, row: &StoredRow) -> bool
        requires { Contains library.now.rows row.now }
        ensures { IsTrue result ↔ SelectsEnd self.now library.now.rows row.now }
    {
        self.last && is_last(library, row) || self.first && is_first(library, row)
    }
}

fn is_last(library: &Library, row: &StoredRow) -> bool
    requires { Contains library.now.rows row.now }
    ensures { IsTrue result ↔ IsPickedBy LastOne library.now.rows row.now }
{
    library.is_picked(row, &[Pick::Last])
}

fn is_first(library: &Library, row: &StoredRow) -> bool
    requires { Contains library.now.rows row.now }
    ensures { IsTrue result ↔ IsPickedBy FirstOne library.now.rows row.now }
{
    library.is_picked(row, &[Pick::First])
}
