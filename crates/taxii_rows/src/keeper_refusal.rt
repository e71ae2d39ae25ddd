use flow_values::{Fault, NoMemory};
use thiserror::Error;

/// Why a call of a keeper failed.
#[derive(Clone, Copy, Debug, PartialEq, Eq, Error)]
pub enum KeeperRefusal {
    /// The storage failed, and the keeper has counted it.
    #[error("the keeper of the rows failed")]
    Fault,
    /// Memory ran out.
    #[error("out of memory")]
    NoMemory,
}

impl From<Fault> for KeeperRefusal {
    ghost use Rattle.std.specs.Prelude.{◌≡◌};
    ghost use Rattle.taxii_rows.specs.declared.keeper_refusal.KeeperRefusal.TheVariants as KeeperRefusal;

    ghost from_gives = { λ _ refusal. refusal ≡ KeeperRefusal.Fault };

    fn from(_fault: Fault) -> KeeperRefusal {
        KeeperRefusal::Fault
    }
}

impl From<NoMemory> for KeeperRefusal {
    ghost use Rattle.std.specs.Prelude.{◌≡◌};
    ghost use Rattle.taxii_rows.specs.declared.keeper_refusal.KeeperRefusal.TheVariants as KeeperRefusal;

    ghost from_gives = { λ _ refusal. refusal ≡ KeeperRefusal.NoMemory };

    fn from(_error: NoMemory) -> KeeperRefusal {
        KeeperRefusal::NoMemory
    }
}
