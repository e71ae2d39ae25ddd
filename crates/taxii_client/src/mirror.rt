ghost use Rattle.std.specs.Prelude.{◌≡◌, All, Err, IfOk, IfErr, OnErr};
ghost use Rattle.flow_edges.specs.Faults.{Counted};
ghost use Rattle.taxii_store.specs.Agreement.{Agrees};
ghost use Rattle.taxii_client.specs.Absorbing.{IsReadable, Absorbs, LacksDatesForPage};
ghost use Rattle.taxii_client.specs.declared.store_refusal.StoreRefusal.TheVariants as Refused;

use crate::partitioned::Partitioned;
use crate::{StoreRefusal, Tally};
use flow_values::Items;
use std::alloc::Global;
use std::marker::Model;
use stix_json::Entry;
use taxii_rows::Keeper;
use taxii_store::Library;

/// A collection of a local store that is filled with the pages of a peer's collection.
#[derive(Drop)]
pub struct Mirror {
    alloc: Global,
    library: Library,
    collection: u128,
}

impl Model for Mirror {
    ghost use Rattle.taxii_client.specs.Absorbing.{MirrorState};

    ghost Value = { MirrorState };

    ghost view = { λ mirror. record { collection = mirror.collection; store = mirror.library } };
}

impl Mirror {
    /// A mirror into a collection of the library. Allocates nothing.
    pub fn new(alloc: Global, library: Library, collection: u128) -> Mirror
        ensures { result ≡ record { collection = collection; store = library } }
    {
        Mirror {
            alloc,
            library,
            collection,
        }
    }

    /// Absorbs a page at a moment (microseconds since 1970): adds the entries that are valid STIX
    /// objects, in order, and skips the others. After an error nothing has changed. `DatesUsedUp`
    /// if fewer dates are left than there are new rows, `Fault` if the keeper failed (and counted
    /// it).
    pub fn absorb<K: Keeper>(
        &mut self,
        keeper: &mut K,
        moment: u64,
        entries: Items<Entry>,
    ) -> Result<Tally, StoreRefusal>
        requires agrees { Agrees (K.kept keeper.old) self.old.store }
        // the JSON reader's output has this form
        requires readable { All IsReadable entries }
        ensures agrees { Agrees (K.kept keeper.new) self.new.store }
        ensures name { (K.kept keeper.new).name ≡ (K.kept keeper.old).name }
        ensures collection { self.new.collection ≡ self.old.collection }
        ensures ok { IfOk result
            (λ tally. Absorbs self.old.collection
            (record { entries = entries; moment = moment; tally = tally }) self.old.store
            self.new.store) }
        // `DatesUsedUp` only if that is so
        ensures dates { IfErr result (λ refusal. refusal ≡ Refused.DatesUsedUp
            → LacksDatesForPage self.old.collection entries self.old.store) }
        ensures err { OnErr result (self.new ≡ self.old) }
        // the keeper counts a fault exactly if the result is `Fault`
        ensures causes { Counted (result ≡ Err Refused.Fault) (K.faults keeper.old)
            (K.faults keeper.new) }
    {
        let partitioned = Partitioned::of(self.alloc, entries.into_vec())?;
        let planned = self
            .library
            .plan_add(self.collection, moment, partitioned.objects)?;
        let tally = Tally::of(planned.outcomes(), partitioned.skipped);
        self.library.commit_add(keeper, planned)?;
        Ok(tally)
    }
}
