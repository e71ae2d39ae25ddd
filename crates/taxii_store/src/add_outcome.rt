/// The outcome of an addition for one object.
#[derive(Clone, Copy, Debug, PartialEq, Eq)]
pub enum AddOutcome {
    /// It became a new row with this date.
    Added {
        /// In microseconds since 1970.
        date: u64,
    },
    /// It was already present, as the row with this date.
    Present {
        /// In microseconds since 1970.
        date: u64,
    },
}
