ghost use Rattle.std.specs.Prelude.{List, ◌↔◌, IsTrue, IfOk};
ghost use Rattle.std.specs.List.{Contains};
ghost use Rattle.stix_ids.specs.declared.id.Id.{Id as Identifier};
ghost use Rattle.taxii_store.specs.inner.Sets.{HasIds};

use flow_values::NoMemory;
use std::alloc::Global;
use stix_ids::Id;

/// A set of identifiers as a sorted vector, for lookups by binary search, as `TextSet`.
#[derive(Drop)]
pub(crate) struct IdSet<'a> {
    ids: Vec<(u128, &'a str)>,
}

impl<'a> IdSet<'a> {
    /// The set of the identifiers of a list.
    pub(crate) fn of(alloc: Global, ids: &'a [Id]) -> Result<IdSet<'a>, NoMemory>
        ensures { IfOk result (λ set. HasIds ids.now set.ids.items) }
    {
        let mut row = Vec::with_capacity(alloc, ids.len())?;
        for id in ids {
            row.push((id.number, id.kind.as_str()))?;
        }
        row.sort()?;
        row.dedup();
        Ok(IdSet { ids: row })
    }

    /// Whether the set contains the identifier. O(log n); allocates nothing.
    pub(crate) fn has(&self, id: &Id) -> bool
        ensures { (ids : List Identifier) → HasIds ids self.now.ids.items
            → IsTrue result ↔ Contains ids id.now }
    {
        self.ids
            .binary_search(&(id.number, id.kind.as_str()))
            .is_ok()
    }
}
