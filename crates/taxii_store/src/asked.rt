ghost use Rattle.std.specs.Prelude.{◌≡◌, ◌↔◌, IsTrue, IfOk, option_map, ℕ, Option, List, IfSome};
ghost use Rattle.std.specs.List.{Contains};
ghost use Rattle.stix_ids.specs.declared.id.Id.{Id as Identifier};
ghost use Rattle.taxii_routes.specs.declared.query.Query.{Query as Wanted};
ghost use Rattle.taxii_store.specs.Meeting.{MeetsQuery, IsAskedFor, picks_of};
ghost use Rattle.taxii_store.specs.inner.Candidates.{CanMeet};
ghost use Rattle.taxii_store.specs.Picks.{HasPicks};
ghost use Rattle.taxii_store.specs.inner.Asking.{HasTextsWhere, HasIdsWhere, AsksOfCollection};

use crate::id_set::IdSet;
use crate::text_set::TextSet;
use crate::{Library, PickSet};
use flow_values::{Items, NoMemory, Text};
use std::alloc::Global;
use stix_ids::{Id, Pick};
use taxii_routes::Query;
use taxii_rows::StoredRow;

/// The filters of a request, compiled once into sets.
#[derive(Drop)]
pub(crate) struct RowFilter<'a> {
    collection: u128,
    only: Option<&'a Id>,
    kinds: Option<TextSet<'a>>,
    ids: Option<IdSet<'a>>,
    picks: PickSet,
}

impl<'a> RowFilter<'a> {
    /// The filters of a query on a collection, and on one object if `only` names it.
    pub(crate) fn of(
        alloc: Global,
        collection: u128,
        only: Option<&'a Id>,
        query: &'a Query,
    ) -> Result<RowFilter<'a>, NoMemory>
        ensures { IfOk result (AsksOfCollection collection (option_map
            (λ id. id.now) only.entry) query.now) }
    {
        let kinds = kind_set(alloc, &query.kinds)?;
        let ids = id_set(alloc, &query.ids)?;
        let picks = pick_set(alloc, query)?;
        Ok(RowFilter {
            collection,
            only,
            kinds,
            ids,
            picks,
        })
    }

    /// Whether the row at this position of the library matches, if its date does. Cheap conditions
    /// are tested before those that need a lookup.
    pub(crate) fn meets(&mut self, library: &Library, place: usize, row: &'a StoredRow) -> bool
        requires there { Contains library.now.rows row.now }
        // the date and the spec version (`CanMeet`) are tested by the caller
        ensures meets { (collection : ℕ) (only : Option Identifier) (query : Wanted)
            → AsksOfCollection collection only query self.old
            → CanMeet query row.now
            → IsTrue result ↔ MeetsQuery library.now.rows collection only query row.now }
        ensures same { (collection : ℕ) (only : Option Identifier) (query : Wanted)
            → AsksOfCollection collection only query self.old
            → AsksOfCollection collection only query self.new }
    {
        self.picks.may_select(library, place, row) && self.is_match(library, row)
    }

    fn is_match(&mut self, library: &Library, row: &'a StoredRow) -> bool
        requires there { Contains library.now.rows row.now }
        ensures meets { (collection : ℕ) (only : Option Identifier) (query : Wanted)
            → AsksOfCollection collection only query self.old
            → CanMeet query row.now
            → IsTrue result ↔ MeetsQuery library.now.rows collection only query row.now }
        ensures same { (collection : ℕ) (only : Option Identifier) (query : Wanted)
            → AsksOfCollection collection only query self.old
            → AsksOfCollection collection only query self.new }
    {
        self.asks_for(row) && self.picks.selects(library, row)
    }

    /// Whether the row matches all conditions that need no other row.
    fn asks_for(&mut self, row: &'a StoredRow) -> bool
        ensures asked { (collection : ℕ) (only : Option Identifier) (query : Wanted)
            → AsksOfCollection collection only query self.old
            → CanMeet query row.now → IsTrue result ↔ IsAskedFor collection only query row.now }
        ensures same { (collection : ℕ) (only : Option Identifier) (query : Wanted)
            → AsksOfCollection collection only query self.old
            → AsksOfCollection collection only query self.new }
    {
        row.collection == self.collection
            && is_object(self.only, &row.id)
            && has_kind(&mut self.kinds, row.id.kind.as_str())
            && has_id(&self.ids, &row.id)
    }
}

/// The set of the types named by `match[type]`, if any.
fn kind_set<'a>(
    alloc: Global,
    kinds: &'a Option<Items<Text>>,
) -> Result<Option<TextSet<'a>>, NoMemory>
    ensures { IfOk result (HasTextsWhere kinds.now) }
{
    match kinds {
        Some(kinds) => Ok(Some(TextSet::of(alloc, kinds.as_slice())?)),
        None => Ok(None),
    }
}

/// The set of the identifiers named by `match[id]`, if any.
fn id_set<'a>(alloc: Global, ids: &'a Option<Items<Id>>) -> Result<Option<IdSet<'a>>, NoMemory>
    ensures { IfOk result (HasIdsWhere ids.now) }
{
    match ids {
        Some(ids) => Ok(Some(IdSet::of(alloc, ids.as_slice())?)),
        None => Ok(None),
    }
}

/// The version filters of a query; the default is the last version (section 3.4).
fn pick_set(alloc: Global, query: &Query) -> Result<PickSet, NoMemory>
    ensures { IfOk result (HasPicks (picks_of query.now)) }
{
    match &query.picks {
        Some(picks) => PickSet::of(alloc, picks.as_slice()),
        None => PickSet::of(alloc, &[Pick::Last]),
    }
}

/// Whether the identifier equals `only`, if given.
fn is_object(only: Option<&Id>, id: &Id) -> bool
    ensures { IsTrue result ↔ IfSome (option_map (λ id. id.now) only.entry) (λ one. id.now ≡ one) }
{
    match only {
        Some(one) => id.number == one.number && id.kind.as_str() == one.kind.as_str(),
        None => true,
    }
}

/// Whether the set has the type; without a set, any type matches.
fn has_kind<'a>(kinds: &mut Option<TextSet<'a>>, kind: &'a str) -> bool
    ensures has { (texts : Option (List (List ℕ))) → HasTextsWhere texts kinds.old
        → IsTrue result ↔ IfSome texts (λ texts. Contains texts kind.now) }
    ensures same { (texts : Option (List (List ℕ))) → HasTextsWhere texts kinds.old
        → HasTextsWhere texts kinds.new }
{
    match kinds {
        Some(kinds) => kinds.has(kind),
        None => true,
    }
}

/// Whether the set has the identifier; without a set, any identifier matches.
fn has_id<'a>(ids: &Option<IdSet<'a>>, id: &'a Id) -> bool
    ensures { (named : Option (List Identifier)) → HasIdsWhere named ids.now
        → IsTrue result ↔ IfSome named (λ named. Contains named id.now) }
{
    match ids {
        Some(ids) => ids.has(id),
        None => true,
    }
}
