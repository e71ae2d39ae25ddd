use crate::ObjectBreak;
use flow_values::{Items, NoMemory, Text};
use thiserror::Error;

/// Why a JSON value isn't a valid bundle.
#[derive(Debug, Drop, Error)]
pub enum BundleRefusal {
    /// It isn't a bundle. The path leads to the first requirement that fails: empty, `type`, `id`,
    /// `objects`, or `objects.[n]` for a member that isn't an object.
    #[error("not a bundle: {}", .path.as_str())]
    NotBundle { path: Text },
    /// Some of its objects break rules of their types: all violations, object by object.
    #[error("objects break rules of their types")]
    Breaks(Items<ObjectBreak>),
    /// Out of memory.
    #[error("out of memory")]
    NoMemory,
}

impl From<NoMemory> for BundleRefusal {
    ghost use Rattle.std.specs.Prelude.{◌≡◌};
    ghost use Rattle.stix_bundles.specs.declared.refusal.BundleRefusal.TheVariants as BundleRefusal;

    ghost from_gives = { λ _ refusal. refusal ≡ BundleRefusal.NoMemory };

    fn from(_error: NoMemory) -> BundleRefusal {
        BundleRefusal::NoMemory
    }
}
