ghost use Rattle.std.specs.Prelude.{◌≡◌, ◌↔◌, IsTrue, true, option_map, map, IsOk, IfOk, OnOk};
ghost use Rattle.std.specs.Prelude.{OnErr, [], Err};
ghost use Rattle.std.specs.List.{Contains};
ghost use Rattle.taxii_rows.specs.Keeper.{row_after as first_later, row_at as first_then};
ghost use Rattle.taxii_rows.specs.Keeper.{with_rows};
ghost use Rattle.flow_edges.specs.Faults.{Counted};
ghost use Rattle.taxii_rows.specs.Picking.{IsPicked, IsPickedBy};
ghost use Rattle.stix_ids.specs.declared.pick.Pick.TheVariants.{Last as LastOne, First as FirstOne};
ghost use Rattle.taxii_rows.specs.SoundRow.{IsSoundState};
ghost use Rattle.taxii_index.specs.Names.{id_of_number};
ghost use Rattle.taxii_index.specs.Index.{HasRowOf, AreRowsOf};
ghost use Rattle.taxii_store.specs.Addition.{watermark_after};
ghost use Rattle.taxii_store.specs.Agreement.{Agrees, without_rows};

use crate::Planned;
use flow_values::NoMemory;
use std::alloc::Global;
use std::marker::Model;
use stix_ids::{Id, Pick};
use taxii_index::HintedRows;
use taxii_rows::laws::{later_rows, sound_states};
use taxii_rows::{Keeper, KeeperRefusal, StoredRow, row_after, row_at};

/// The rows of a keeper in memory, with the watermark (the last date ever given).
#[derive(Drop)]
pub struct Library {
    pub(crate) alloc: Global,
    pub(crate) secret: u128,
    pub(crate) rows: HintedRows,
    pub(crate) watermark: u64,
}

impl Model for Library {
    ghost use Rattle.taxii_rows.specs.StoreState.{StoreState};
    ghost use Rattle.taxii_rows.specs.SoundRow.{IsSoundState};

    ghost Value = { StoreState };

    ghost view = { λ library. record { rows = library.rows; watermark = library.watermark } };

    ghost invariant = { λ library.
        IsSoundState (record { rows = library.rows; watermark = library.watermark }) };
}

impl Library {
    /// The rows, by date. Allocates nothing, as all calls below but `rows_of` and `commit_add`.
    pub fn rows(&self) -> &[StoredRow]
        ensures rows { result.now ≡ self.now.rows }
        ensures sound { IsSoundState self.now }
    {
        self.rows.as_slice()
    }

    /// The row of this date, if any.
    pub fn row(&self, date: u64) -> Option<&StoredRow>
        ensures { option_map (λ row. row.now) result ≡ first_then date self.now.rows }
    {
        row_at(self.rows.as_slice(), date)
    }

    /// The first row added later than the date, if any.
    pub fn row_after(&self, date: u64) -> Option<&StoredRow>
        ensures { option_map (λ row. row.now) result ≡ first_later date self.now.rows }
    {
        row_after(self.rows.as_slice(), date)
    }

    /// Whether the collection has a row of the object with this UUID and type.
    pub fn has_object(&self, collection: u128, number: u128, kind: &str) -> bool
        ensures { IsTrue result ↔ HasRowOf self.now.rows collection (id_of_number number kind.now) }
    {
        self.rows.has_object(collection, number, kind)
    }

    /// The rows of the object in the collection, by date. O(k log n) for k rows, without a scan.
    pub fn rows_of(&self, collection: u128, id: &Id) -> Result<Vec<&StoredRow>, NoMemory>
        ensures { IfOk result
            (λ found. AreRowsOf collection id.now self.now.rows
            (map (λ row. row.now) found.items)) }
    {
        self.rows.rows_of(collection, id)
    }

    /// The position of the row of a date, if there is one. It is a hint: no clause states it.
    pub fn position_of(&self, date: u64) -> usize {
        self.rows.position_of(date)
    }

    /// Whether one of the version filters selects a row of the library among the rows of its
    /// object.
    pub fn is_picked(&self, row: &StoredRow, picks: &[Pick]) -> bool
        requires { Contains self.now.rows row.now }
        ensures { IsTrue result ↔ IsPicked picks.now self.now.rows row.now }
    {
        self.rows.is_picked(row, picks)
    }

    /// Whether a row, at this position of the library, may be the last version of its object. No
    /// last version is missed. O(1), without a lookup, as the call below.
    pub fn may_be_last(&self, place: usize, row: &StoredRow) -> bool
        requires { Contains self.now.rows row.now }
        ensures { IsPickedBy LastOne self.now.rows row.now → result ≡ true }
    {
        self.rows.may_be_last(place, row)
    }

    /// Whether a row may be the first version of its object, likewise.
    pub fn may_be_first(&self, place: usize, row: &StoredRow) -> bool
        requires { Contains self.now.rows row.now }
        ensures { IsPickedBy FirstOne self.now.rows row.now → result ≡ true }
    {
        self.rows.may_be_first(place, row)
    }

    /// Commits an addition: adds its rows to the keeper and the library. With no rows the keeper is
    /// not called. All memory is allocated before the keeper is called, and nothing fails after its
    /// `Ok`. After an error nothing has changed: `Fault` if the keeper failed (and counted it).
    pub fn commit_add<K: Keeper>(
        &mut self,
        keeper: &mut K,
        planned: Planned,
    ) -> Result<(), KeeperRefusal>
        requires agrees { Agrees (K.kept keeper.old) self.old }
        // nothing was committed since the plan was made
        requires watermark { planned.watermark ≡ self.old.watermark }
        ensures agrees { Agrees (K.kept keeper.new) self.new }
        ensures keeper { without_rows (K.kept keeper.new) ≡ without_rows (K.kept keeper.old) }
        ensures ok { OnOk result
            (self.new ≡ with_rows planned.rows
            (watermark_after planned.watermark planned.rows) self.old) }
        ensures err { OnErr result (self.new ≡ self.old) }
        ensures nothing { planned.rows ≡ [] → IsOk result × (keeper.new ≡ keeper.old) }
        ensures causes { Counted (result ≡ Err KeeperRefusal.Fault) (K.faults keeper.old)
            (K.faults keeper.new) }
    {
        if planned.rows.is_empty() {
            return Ok(());
        }
        later_rows();
        sound_states();
        let length = self.rows.as_slice().len();
        let last = planned.last;
        self.rows.append(planned.rows)?;
        match keeper.append(&self.rows.as_slice()[length..], last) {
            Ok(()) => {
                self.watermark = last;
                Ok(())
            }
            Err(refusal) => {
                self.rows.truncate(length);
                Err(refusal)
            }
        }
    }
}
