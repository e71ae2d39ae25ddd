use stix_ids::Id;
use stix_times::Instant;

/// The greatest count of a sighting (STIX 2.1, section 5.2).
pub const MAX_COUNT: u64 = 999_999_999;

/// The data of which a sighting is made.
#[derive(Clone, Copy)]
pub struct SightingInput<'i> {
    /// The indicator's identifier.
    pub indicator: &'i Id,
    /// When the indicator was created: a whole number of microseconds.
    pub created: Instant,
    /// How many bindings its pattern had.
    pub count: u64,
    /// When the observation was last observed at which the first of them ended.
    pub first: Instant,
    /// When the observation was last observed at which the last of them ended.
    pub last: Instant,
}
