use flow_values::NoMemory;
use taxii_rows::KeeperRefusal;
use taxii_store::PlanRefusal;
use thiserror::Error;

/// Why a page is not absorbed. Nothing has changed.
#[derive(Clone, Copy, Debug, PartialEq, Eq, Error)]
pub enum StoreRefusal {
    /// Fewer dates are left than there are new rows.
    #[error("the dates of rows are used up")]
    DatesUsedUp,
    /// The keeper failed, and has counted it.
    #[error("the keeper of the rows failed")]
    Fault,
    /// Memory ran out.
    #[error("out of memory")]
    NoMemory,
}

impl From<NoMemory> for StoreRefusal {
    ghost use Rattle.std.specs.Prelude.{◌≡◌};
    ghost use Rattle.taxii_client.specs.declared.store_refusal.StoreRefusal.TheVariants as StoreRefusal;

    ghost from_gives = { λ _ refusal. refusal ≡ StoreRefusal.NoMemory };

    fn from(_: NoMemory) -> StoreRefusal {
        StoreRefusal::NoMemory
    }
}

impl From<PlanRefusal> for StoreRefusal {
    ghost use Rattle.std.specs.Prelude.{◌≡◌};
    ghost use Rattle.taxii_client.specs.StoreRefusals.{for_plan};

    ghost from_gives = { λ plan refusal. refusal ≡ for_plan plan };

    fn from(refusal: PlanRefusal) -> StoreRefusal {
        match refusal {
            PlanRefusal::DatesUsedUp => StoreRefusal::DatesUsedUp,
            PlanRefusal::NoMemory => StoreRefusal::NoMemory,
        }
    }
}

impl From<KeeperRefusal> for StoreRefusal {
    ghost use Rattle.std.specs.Prelude.{◌≡◌};
    ghost use Rattle.taxii_client.specs.StoreRefusals.{for_keeper};

    ghost from_gives = { λ keeper refusal. refusal ≡ for_keeper keeper };

    fn from(refusal: KeeperRefusal) -> StoreRefusal {
        match refusal {
            KeeperRefusal::Fault => StoreRefusal::Fault,
            KeeperRefusal::NoMemory => StoreRefusal::NoMemory,
        }
    }
}
