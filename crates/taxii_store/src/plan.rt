ghost use Rattle.std.specs.Prelude.{◌≡◌, All, IfOk, IfErr};
ghost use Rattle.taxii_rows.specs.declared.stored_row.TheConstants.{LAST_DATE as last_date};
ghost use Rattle.taxii_store.specs.declared.plan_refusal.PlanRefusal.TheVariants.{DatesUsedUp as UsedUp};
ghost use Rattle.taxii_store.specs.Addition.{AddsObjects, IsAddition, UsesUpDates};
ghost use Rattle.taxii_store.specs.Addition.{first_date as first_given, watermark_after};
ghost use Rattle.taxii_store.specs.Planned.{IsSound};
ghost use Rattle.taxii_store.specs.inner.Moving.{IsDraft};

use crate::draft::Draft;
use crate::shifted::{shift_outcomes, shift_rows};
use crate::{Library, PlanRefusal, Planned};
use taxii_rows::{Described, LAST_DATE};

impl Library {
    /// Plans an addition of objects to a collection at a moment, in microseconds since 1970.
    /// Changes nothing. An object is present if a row of the collection has its version, or its
    /// text if it is undated. This includes earlier objects of the same addition. `DatesUsedUp` if
    /// fewer dates are left than there are new rows.
    pub fn plan_add(
        &self,
        collection: u128,
        moment: u64,
        objects: Vec<Described>,
    ) -> Result<Planned, PlanRefusal>
        // `describe` returns such objects
        requires sound { All IsSound objects.items }
        ensures watermark { IfOk result (λ planned. planned.watermark ≡ self.now.watermark) }
        ensures ok { IfOk result
            (λ planned. IsAddition self.now collection moment objects.items planned.outcomes
            planned.rows) }
        // `UsedUp` only if that is so; out of memory needs no reason
        ensures err { IfErr result (λ refusal. refusal ≡ UsedUp
            → UsesUpDates self.now collection objects.items) }
    {
        let draft = Draft::of(self, collection, objects)?;
        Ok(draft.planned_at(self.watermark, moment))
    }
}
