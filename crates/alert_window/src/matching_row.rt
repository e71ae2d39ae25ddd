use stix_times::Instant;

/// An observation at which the bracket holds, by its first time and its number. Rows are ordered by
/// first time, then by number.
#[derive(Clone, Copy, Debug, PartialEq, Eq, PartialOrd, Ord)]
pub struct MatchingRow {
    pub first: Instant,
    pub number: u64,
}
