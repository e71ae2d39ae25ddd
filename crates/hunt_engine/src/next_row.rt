use stix_times::Instant;

/// The next row of a log, as far as it is common to all patterns.
#[derive(Clone, Copy, Debug)]
pub(crate) struct NextRow {
    /// How many rows come before it.
    pub(crate) rows: u64,
    /// The end of the row before it.
    pub(crate) before: Option<Instant>,
    /// Its first time.
    pub(crate) first: Instant,
    /// Its last time.
    pub(crate) last: Instant,
}
