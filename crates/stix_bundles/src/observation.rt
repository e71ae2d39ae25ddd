use flow_values::{Items, NoMemory};
use stix_ids::Id;
use stix_times::Instant;
use thiserror::Error;

/// An observed-data object (STIX 2.1, section 4.14) as an observation.
#[derive(Debug, Drop)]
pub struct Observation {
    /// The number of the observation, in the order of observations.
    pub number: u64,
    /// The object's identifier.
    pub id: Id,
    /// The `first_observed` of the object.
    pub first: Instant,
    /// The `last_observed` of the object.
    pub last: Instant,
    /// The positions of the objects of `object_refs`, in order, without the unresolved ones.
    pub roots: Items<u32>,
}

/// Why a bundle has no observations.
#[derive(Clone, Copy, Debug, PartialEq, Eq, Error)]
pub enum ObservationRefusal {
    /// The first observed-data object that embeds its objects, in the deprecated property
    /// `objects`.
    #[error("object {object} holds its objects itself")]
    EmbeddedObjects { object: u32 },
    /// Out of memory.
    #[error("out of memory")]
    NoMemory,
}

impl From<NoMemory> for ObservationRefusal {
    ghost use Rattle.std.specs.Prelude.{◌≡◌};
    ghost use Rattle.stix_bundles.specs.declared.observation.ObservationRefusal.TheVariants as ObservationRefusal;

    ghost from_gives = { λ _ refusal. refusal ≡ ObservationRefusal.NoMemory };

    fn from(_error: NoMemory) -> ObservationRefusal {
        ObservationRefusal::NoMemory
    }
}
