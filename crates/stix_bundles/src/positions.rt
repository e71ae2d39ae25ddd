ghost use Rattle.std.specs.Prelude.{◌≡◌, ◌≢◌, Some, None, OnOk};
ghost use Rattle.stix_ids.specs.declared.id.Id.{Id};
ghost use Rattle.stix_ids.specs.PartsOf.{id_of};
ghost use Rattle.stix_bundles.specs.inner.Index.{position_of, PutsPosition};

use flow_values::NoMemory;
use std::alloc::Global;
use std::collections::BTreeMap;
use stix_ids::IdRef;

/// A map from identifiers to positions, in two levels: by kind, then by UUID.
#[derive(Drop)]
pub(crate) struct Positions {
    kinds: BTreeMap<String, BTreeMap<u128, u32>>,
}

impl Positions {
    /// An empty map. Allocates nothing.
    pub(crate) fn new(alloc: Global) -> Positions
        ensures { (id : Id) → position_of result id ≡ None }
    {
        Positions {
            kinds: BTreeMap::new(alloc),
        }
    }

    /// The position of an identifier. Logarithmic. Allocates nothing.
    pub(crate) fn get(&self, id: IdRef<'_>) -> Option<u32>
        ensures { result ≡ position_of self.now (id_of id.entry) }
    {
        let numbers = self.kinds.get(id.kind)?;
        numbers.get(&id.number).copied()
    }

    /// Sets the position of an identifier, and replaces an earlier one.
    pub(crate) fn put(&mut self, alloc: Global, id: IdRef<'_>, at: u32) -> Result<(), NoMemory>
        ensures { OnOk result (PutsPosition self.old self.new (id_of id.entry) at) }
    {
        if let Some(numbers) = self.kinds.get_mut(id.kind) {
            numbers.insert(id.number, at)?;
            return Ok(());
        }
        let kind = String::from_str(alloc, id.kind)?;
        let mut numbers = BTreeMap::new(alloc);
        numbers.insert(id.number, at)?;
        self.kinds.insert(kind, numbers)?;
        Ok(())
    }
}
