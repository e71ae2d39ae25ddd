use flow_values::Items;
use pattern_reader::PatternRefusal;
use pattern_types::Pattern;
use stix_ids::Id;
use stix_times::Instant;

/// An indicator that is hunted.
#[derive(Debug, Drop)]
pub struct Hunted {
    /// Its position among the objects, counted from 0.
    pub at: u32,
    /// Its identifier.
    pub id: Id,
    /// When it was created: a whole number of microseconds.
    pub created: Instant,
    /// Its parsed pattern.
    pub pattern: Pattern,
}

/// An indicator that would be hunted if its pattern parsed.
#[derive(Debug, Drop)]
pub struct Skipped {
    /// Its position among the objects, counted from 0.
    pub at: u32,
    /// Its identifier.
    pub id: Id,
    /// Why its pattern is refused; never for lack of memory.
    pub refusal: PatternRefusal,
}

/// The indicators hunted at a moment, and those skipped, each by position.
#[derive(Debug, Drop)]
pub struct Hunt {
    pub hunted: Items<Hunted>,
    pub skipped: Items<Skipped>,
}
