use flow_values::NoMemory;
use taxii_rows::KeeperRefusal;
use thiserror::Error;

/// Why the rows of a keeper cannot be loaded. The keeper's rows and its watermark are unchanged.
#[derive(Clone, Copy, Debug, PartialEq, Eq, Error)]
pub enum LoadRefusal {
    /// A call of the keeper failed; the keeper has counted it.
    #[error("the keeper of the rows failed")]
    KeeperFault,
    /// The row after this date does not agree with its body, or its date is after the watermark. Or
    /// there is no such row, and the watermark is after the last valid date.
    #[error("bad row after {after}")]
    BadRow {
        /// In microseconds since 1970; 0 for the first row.
        after: u64,
    },
    /// Memory ran out.
    #[error("out of memory")]
    NoMemory,
}

impl From<NoMemory> for LoadRefusal {
    ghost use Rattle.std.specs.Prelude.{◌≡◌};
    ghost use Rattle.taxii_store.specs.declared.load_refusal.LoadRefusal.TheVariants as LoadRefusal;

    ghost from_gives = { λ _ refusal. refusal ≡ LoadRefusal.NoMemory };

    fn from(_error: NoMemory) -> LoadRefusal {
        LoadRefusal::NoMemory
    }
}

impl From<KeeperRefusal> for LoadRefusal {
    ghost use Rattle.std.specs.Prelude.{◌≡◌};
    ghost use Rattle.taxii_store.specs.Loading.{load_refusal};

    ghost from_gives = { λ refusal given. given ≡ load_refusal refusal };

    fn from(refusal: KeeperRefusal) -> LoadRefusal {
        match refusal {
            KeeperRefusal::Fault => LoadRefusal::KeeperFault,
            KeeperRefusal::NoMemory => LoadRefusal::NoMemory,
        }
    }
}
