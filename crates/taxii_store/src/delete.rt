ghost use Rattle.std.specs.Prelude.{◌≡◌, ◌↔◌, List, [], IsTrue, IsOk, IfOk, OnOk, OnErr, Err};
ghost use Rattle.std.specs.List.{Contains};
ghost use Rattle.taxii_rows.specs.Keeper.{without};
ghost use Rattle.flow_edges.specs.Faults.{Counted};
ghost use Rattle.taxii_rows.specs.StoreState.{AscendFrom};
ghost use Rattle.taxii_store.specs.Agreement.{Agrees, without_rows};
ghost use Rattle.stix_ids.specs.declared.pick.Pick.{Pick as Picked};
ghost use Rattle.taxii_rows.specs.Picking.{IsPicked};
ghost use Rattle.taxii_store.specs.Picks.{HasPicks};
ghost use Rattle.taxii_store.specs.Deleting.{IsDeletedRow, AreDatesTaken};

use crate::{Library, PickSet};
use flow_values::{Items, NoMemory};
use stix_ids::{Id, Pick};
use taxii_rows::laws::sound_states;
use taxii_rows::{Keeper, KeeperRefusal, StoredRow};

impl Library {
    /// Plans a deletion: the dates, ascending, of the rows of an object in a collection that the
    /// version filters select. Changes nothing. O(k log n) for the object's k rows.
    pub fn plan_delete(
        &self,
        collection: u128,
        id: &Id,
        picks: &[Pick],
    ) -> Result<Items<u64>, NoMemory>
        ensures { IfOk result (AreDatesTaken self.now.rows collection id.now picks.now) }
    {
        let set = PickSet::of(self.alloc, picks)?;
        let rows = self.rows_of(collection, id)?;
        let mut dates = Items::new(self.alloc);
        for row in rows.as_slice() {
            if self.is_selected(row, &set) {
                dates.push(row.date)?;
            }
        }
        Ok(dates)
    }

    /// Whether one of the version filters selects the row. The test without a lookup comes first.
    fn is_selected(&self, row: &StoredRow, set: &PickSet) -> bool
        requires { Contains self.now.rows row.now }
        ensures { (picks : List Picked) → HasPicks picks set.now
            → IsTrue result ↔ IsPicked picks self.now.rows row.now }
    {
        set.may_select(self, self.position_of(row.date), row) && set.selects(self, row)
    }

    /// Commits a deletion: removes the rows of these dates, which ascend, from the keeper and then
    /// from the library. With no dates the keeper is not called. The watermark stays. After an
    /// error nothing has changed: `Fault` if the keeper failed (and counted it), `NoMemory` if it
    /// ran out of memory.
    pub fn commit_delete<K: Keeper>(
        &mut self,
        keeper: &mut K,
        dates: &[u64],
    ) -> Result<(), KeeperRefusal>
        requires agrees { Agrees (K.kept keeper.old) self.old }
        requires ascend { AscendFrom 0 dates.now }
        ensures agrees { Agrees (K.kept keeper.new) self.new }
        // the name and the attachment of the keeper stay
        ensures keeper { without_rows (K.kept keeper.new) ≡ without_rows (K.kept keeper.old) }
        ensures ok { OnOk result (self.new ≡ without dates.now self.old) }
        ensures err { OnErr result (self.new ≡ self.old) }
        ensures nothing { dates.now ≡ [] → IsOk result × (keeper.new ≡ keeper.old) }
        ensures causes { Counted (result ≡ Err KeeperRefusal.Fault) (K.faults keeper.old)
            (K.faults keeper.new) }
    {
        if dates.is_empty() {
            return Ok(());
        }
        sound_states();
        keeper.remove(dates)?;
        self.rows.remove(dates);
        Ok(())
    }
}
