ghost use Rattle.std.specs.Prelude.{◌≡◌};
ghost use Rattle.taxii_store.specs.Planned.{IsSoundPlan};

use crate::AddOutcome;
use std::marker::Model;
use taxii_rows::StoredRow;

/// A planned addition: the outcome of each object, and the new rows.
#[derive(Drop)]
pub struct Planned {
    pub(crate) watermark: u64,
    pub(crate) last: u64,
    pub(crate) outcomes: Vec<AddOutcome>,
    pub(crate) rows: Vec<StoredRow>,
}

impl Model for Planned {
    ghost use Rattle.std.specs.Prelude.{◌≡◌};
    ghost use Rattle.taxii_store.specs.Addition.{watermark_after};
    ghost use Rattle.taxii_store.specs.Planned.{PlannedState, IsSoundPlan};
    ghost use Rattle.taxii_store.specs.inner.Moving.{planned_of};

    ghost Value = { PlannedState };

    ghost view = { λ planned.
        planned_of planned.watermark planned.outcomes.items planned.rows.items };

    ghost invariant = { λ planned.
        IsSoundPlan (planned_of planned.watermark planned.outcomes.items planned.rows.items)
        × (planned.last ≡ watermark_after planned.watermark planned.rows.items) };
}

impl Planned {
    /// The outcome of each object, in their order. Allocates nothing; nor does the call below.
    pub fn outcomes(&self) -> &[AddOutcome]
        ensures { result.now ≡ self.now.outcomes }
    {
        self.outcomes.as_slice()
    }

    /// The new rows, by date; all dates are after the watermark.
    pub fn rows(&self) -> &[StoredRow]
        ensures rows { result.now ≡ self.now.rows }
        ensures sound { IsSoundPlan self.now }
    {
        self.rows.as_slice()
    }
}
