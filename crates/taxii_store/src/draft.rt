ghost use Rattle.std.specs.Prelude.{◌≡◌, ◌+◌, ◌≤◌, ◌<◌, ◌++◌, ◌∷◌, [], None, Ok, All, IfOk, IfErr};
ghost use Rattle.std.specs.Prelude.{IfSome, OnOk, OnErr, option_map, length};
ghost use Rattle.taxii_rows.specs.declared.stored_row.TheConstants.{LAST_DATE as last_date};
ghost use Rattle.taxii_rows.specs.Described.{stored_row_of};
ghost use Rattle.taxii_index.specs.Presence.{duplicate_of};
ghost use Rattle.taxii_store.specs.declared.plan_refusal.PlanRefusal.TheVariants.{DatesUsedUp as UsedUp};
ghost use Rattle.taxii_store.specs.Addition.{AddsObjects, UsesUpDates, date_in};
ghost use Rattle.taxii_store.specs.Planned.{IsSound};
ghost use Rattle.taxii_store.specs.inner.Moving.{IsDraft, PlacesObject, LacksDate, plan_of};

use crate::shifted::{first_date, last_of, shift_outcomes, shift_rows};
use crate::{AddOutcome, Library, PlanRefusal, Planned};
use flow_values::{Items, NoMemory};
use std::alloc::Global;
use taxii_index::{HintedRows, IndexedRows};
use taxii_rows::{Described, LAST_DATE};

/// An addition in progress. Its new rows have consecutive dates after the watermark, since their
/// final dates depend on how many they are.
#[derive(Drop)]
pub(crate) struct Draft {
    outcomes: Items<AddOutcome>,
    added: IndexedRows,
}

impl Draft {
    /// Adds the objects in order.
    pub(crate) fn of(
        library: &Library,
        collection: u128,
        objects: Vec<Described>,
    ) -> Result<Draft, PlanRefusal>
        requires { All IsSound objects.items }
        ensures ok { IfOk result
            (λ draft. AddsObjects collection
            (library.now.watermark + 1) library.now.rows objects.items draft.outcomes draft.added) }
        ensures draft { IfOk result
            (λ draft. IsDraft library.now.watermark draft.outcomes draft.added) }
        ensures err { IfErr result (λ refusal. refusal ≡ UsedUp
            → UsesUpDates library.now collection objects.items) }
    {
        let mut draft = Draft::empty(library.alloc, library.secret, objects.len())?;
        for object in objects {
            draft.place(library, collection, object)?;
        }
        Ok(draft)
    }

    /// The plan at a moment, in microseconds since 1970. The new rows' dates start at the moment if
    /// it is after the watermark, but early enough that the last row still has a valid date.
    pub(crate) fn planned_at(self, watermark: u64, moment: u64) -> Planned
        requires draft { IsDraft watermark self.outcomes self.added }
        ensures { result ≡ plan_of watermark moment self.outcomes self.added }
    {
        let count = self.added.as_slice().len() as u64;
        let shift = first_date(watermark, moment, count) - (watermark + 1);
        let mut rows = self.added.into_rows();
        let mut outcomes = self.outcomes.into_vec();
        shift_rows(&mut rows, shift);
        shift_outcomes(&mut outcomes, watermark, shift);
        let last = last_of(&rows, watermark);
        Planned {
            watermark,
            last,
            outcomes,
            rows,
        }
    }

    /// An empty draft with capacity for `count` outcomes.
    fn empty(alloc: Global, secret: u128, count: usize) -> Result<Draft, NoMemory>
        ensures { IfOk result (λ draft. (draft.outcomes ≡ []) × (draft.added ≡ [])) }
    {
        let outcomes = Items::with_capacity(alloc, count)?;
        Ok(Draft {
            outcomes,
            added: IndexedRows::new(alloc, secret),
        })
    }

    /// Adds an object: it is present already, or becomes a new row.
    fn place(
        &mut self,
        library: &Library,
        collection: u128,
        object: Described,
    ) -> Result<(), PlanRefusal>
        requires draft { IsDraft library.now.watermark self.old.outcomes self.old.added }
        requires sound { IsSound object }
        ensures ok { OnOk result
            (PlacesObject library.now collection object self.old.outcomes self.old.added
            self.new.outcomes self.new.added) }
        ensures draft { OnOk result
            (IsDraft library.now.watermark self.new.outcomes self.new.added) }
        ensures err { IfErr result (λ refusal. refusal ≡ UsedUp
            → LacksDate library.now collection object self.old.added) }
    {
        let outcome = match self.date_of_duplicate(library, collection, &object) {
            Some(date) => AddOutcome::Present { date },
            None => self.add(library.watermark, collection, object)?,
        };
        self.outcomes.push(outcome)?;
        Ok(())
    }

    /// The date of the first row, stored or new, that makes the object present.
    fn date_of_duplicate(
        &self,
        library: &Library,
        collection: u128,
        object: &Described,
    ) -> Option<u64>
        requires { IsDraft library.now.watermark self.now.outcomes self.now.added }
        ensures date { result
            ≡ option_map (λ row. row.date)
            (duplicate_of collection object.now (library.now.rows ++ self.now.added)) }
        ensures known { IfSome result (λ date. date ≤ last_date) }
    {
        let held = date_held(&library.rows, collection, object);
        match held {
            Some(_) => held,
            None => date_added(&self.added, collection, object),
        }
    }

    /// Adds a row for the object, with the next date.
    fn add(
        &mut self,
        watermark: u64,
        collection: u128,
        object: Described,
    ) -> Result<AddOutcome, PlanRefusal>
        requires draft { IsDraft watermark self.old.outcomes self.old.added }
        requires sound { IsSound object }
        ensures outcome { IfOk result
            (λ outcome. outcome ≡ AddOutcome.Added (watermark + 1 + length self.old.added)) }
        ensures known { IfOk result (λ outcome. date_in outcome ≤ last_date) }
        ensures row { OnOk result
            (self.new.added ≡ self.old.added
            ++ stored_row_of object (watermark + 1 + length self.old.added) collection ∷ []) }
        ensures draft { OnOk result (IsDraft watermark self.new.outcomes self.new.added) }
        ensures outcomes { self.new.outcomes ≡ self.old.outcomes }
        ensures err { IfErr result (λ refusal. refusal ≡ UsedUp
            → last_date < watermark + 1 + length self.old.added) }
    {
        let date = watermark + 1 + self.added.as_slice().len() as u64;
        if date > LAST_DATE {
            return Err(PlanRefusal::DatesUsedUp);
        }
        self.added.push(object.into_row(date, collection))?;
        Ok(AddOutcome::Added { date })
    }
}

/// The date of the first stored row that makes the object present.
fn date_held(rows: &HintedRows, collection: u128, object: &Described) -> Option<u64>
    ensures { result ≡ option_map (λ row. row.date) (duplicate_of collection object.now rows.now) }
{
    let row = rows.duplicate_of(collection, object)?;
    Some(row.date)
}

/// The date of the first new row that makes the object present.
fn date_added(rows: &IndexedRows, collection: u128, object: &Described) -> Option<u64>
    ensures { result ≡ option_map (λ row. row.date) (duplicate_of collection object.now rows.now) }
{
    let row = rows.duplicate_of(collection, object)?;
    Some(row.date)
}
