use crate::pending_left::PendingLeft;
use stix_times::Instant;

/// The filter of a join at a row: it keeps the results that are needed, and stops where they exceed
/// the budget.
#[derive(Drop)]
pub struct JoinFilter<'a> {
    /// When the row ends.
    pub time: Instant,
    /// The left operands of the enclosing `FOLLOWEDBY`s. The innermost is the last.
    pub pending_lefts: &'a [PendingLeft],
    /// How many results there may be, with those already in the output.
    pub budget: u64,
}
