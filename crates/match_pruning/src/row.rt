use stix_times::Instant;

/// A row of a log without its truths.
#[derive(Clone, Copy)]
pub struct Row {
    pub number: u64,
    pub first: Instant,
    pub last: Instant,
}
