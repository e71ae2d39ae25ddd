use flow_values::NoMemory;
use thiserror::Error;

/// Why an addition cannot be planned. Nothing has changed.
#[derive(Clone, Copy, Debug, PartialEq, Eq, Error)]
pub enum PlanRefusal {
    /// Fewer dates are left than there are new rows.
    #[error("the dates of rows are used up")]
    DatesUsedUp,
    /// Memory ran out.
    #[error("out of memory")]
    NoMemory,
}

impl From<NoMemory> for PlanRefusal {
    ghost use Rattle.std.specs.Prelude.{◌≡◌};
    ghost use Rattle.taxii_store.specs.declared.plan_refusal.PlanRefusal.TheVariants as PlanRefusal;

    ghost from_gives = { λ _ refusal. refusal ≡ PlanRefusal.NoMemory };

    fn from(_error: NoMemory) -> PlanRefusal {
        PlanRefusal::NoMemory
    }
}
