ghost use Rattle.std.specs.Prelude.{◌≡◌, ◌≢◌, ◌⊎◌, ◌↔◌, None, Some, Err, IsTrue, IsOk, IfOk, IfErr};
ghost use Rattle.std.specs.Prelude.{OnOk, MatchOption};
ghost use Rattle.taxii_routes.specs.declared.param.Param.{Param};
ghost use Rattle.taxii_routes.specs.declared.refusal.QueryRefusal.TheVariants as QueryRefusal;
ghost use Rattle.taxii_routes.specs.Query.{pairs_of, asked, IsQueryOf, IsRefusedQuery};
ghost use Rattle.taxii_routes.specs.inner.Step.{AddsParameter, CannotAddParameter, Steps, Stops};

use crate::members::{read_ids, read_picks, read_texts};
use crate::value::{read_instant, read_limit, read_next};
use crate::{Param, QueryRefusal};
use flow_values::{Items, Text};
use form_urlencoded::{decode, raw_pairs};
use std::alloc::Global;
use stix_ids::{Id, Pick};
use stix_times::Instant;

/// A parsed query: the value of each parameter, or `None` if it is absent.
#[derive(Debug, Drop)]
pub struct Query {
    /// Only objects added after this instant (`added_after`).
    pub added_after: Option<Instant>,
    /// The maximum number of objects in a page (`limit`).
    pub limit: Option<u64>,
    /// The cursor of the page (`next`): the date of the last row of the page before.
    pub next: Option<u64>,
    /// The identifiers of the objects (`match[id]`).
    pub ids: Option<Items<Id>>,
    /// The types of the objects (`match[type]`).
    pub kinds: Option<Items<Text>>,
    /// Which versions of each object (`match[version]`).
    pub picks: Option<Items<Pick>>,
    /// The STIX versions of the objects (`match[spec_version]`).
    pub specs: Option<Items<Text>>,
}

/// Parses the query string after the `?` of a target. The first invalid parameter from left to
/// right is refused: `BadValue`, or `Repeated` if it occurred before. Unknown parameters are
/// ignored. O(n) in the length of the text.
pub fn read_query(alloc: Global, text: &str) -> Result<Query, QueryRefusal>
    ensures ok { IfOk result (IsQueryOf (pairs_of text.now)) }
    ensures err { IfErr result
        (λ refusal. (refusal ≡ QueryRefusal.NoMemory)
        ⊎ IsRefusedQuery (pairs_of text.now) refusal) }
{
    let mut query = Query::new();
    for (name, value) in raw_pairs(text.as_bytes()) {
        query.add_pair(alloc, name, value)?;
    }
    Ok(query)
}

impl Query {
    /// A query without parameters.
    fn new() -> Query
        ensures { (param : Param) → asked param result ≡ None }
    {
        Query {
            added_after: None,
            limit: None,
            next: None,
            ids: None,
            kinds: None,
            picks: None,
            specs: None,
        }
    }

    /// Whether the parameter is present.
    fn has(&self, param: Param) -> bool
        ensures { IsTrue result ↔ (asked param self.now ≢ None) }
    {
        match param {
            Param::AddedAfter => self.added_after.is_some(),
            Param::Limit => self.limit.is_some(),
            Param::Next => self.next.is_some(),
            Param::MatchId => self.ids.is_some(),
            Param::MatchType => self.kinds.is_some(),
            Param::MatchVersion => self.picks.is_some(),
            Param::MatchSpec => self.specs.is_some(),
        }
    }

    /// Adds a percent-encoded pair; unknown names are ignored.
    fn add_pair(&mut self, alloc: Global, name: &[u8], value: &[u8]) -> Result<(), QueryRefusal>
        ensures ok { OnOk result (Steps name.now value.now self.old self.new) }
        ensures err { IfErr result (Stops name.now value.now self.old) }
    {
        let name = decode(alloc, name)?;
        match Param::named(name.as_str()) {
            Some(param) => {
                let value = decode(alloc, value)?;
                self.add(alloc, param, value.as_str())
            }
            None => Ok(()),
        }
    }

    /// Parses a value, and stores it under its parameter.
    fn add(&mut self, alloc: Global, param: Param, value: &str) -> Result<(), QueryRefusal>
        ensures ok { OnOk result (AddsParameter param value.now self.old self.new) }
        ensures err { IfErr result (CannotAddParameter param value.now self.old) }
    {
        if self.has(param) {
            return Err(QueryRefusal::Repeated { name: param });
        }
        let bad = QueryRefusal::BadValue { name: param };
        match param {
            Param::AddedAfter => set(&mut self.added_after, read_instant(value), bad),
            Param::Limit => set(&mut self.limit, read_limit(value), bad),
            Param::Next => set(&mut self.next, read_next(value), bad),
            Param::MatchId => set(&mut self.ids, read_ids(alloc, value)?, bad),
            Param::MatchType => set(&mut self.kinds, read_texts(alloc, value)?, bad),
            Param::MatchVersion => set(&mut self.picks, read_picks(alloc, value)?, bad),
            Param::MatchSpec => set(&mut self.specs, read_texts(alloc, value)?, bad),
        }
    }
}

/// Stores a parsed value; `None` means that it is malformed.
fn set<T: Drop>(
    slot: &mut Option<T>,
    meaning: Option<T>,
    bad: QueryRefusal,
) -> Result<(), QueryRefusal>
    ensures { MatchOption meaning ((result ≡ Err bad) × (slot.new ≡ slot.old))
        (λ value. IsOk result × (slot.new ≡ Some value)) }
{
    if meaning.is_none() {
        return Err(bad);
    }
    *slot = meaning;
    Ok(())
}
