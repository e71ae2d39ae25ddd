use stix_times::Instant;

/// The greatest width of a pattern: the number of observations that one match of it can have.
pub const MAX_WIDTH: u32 = 64;

/// The greatest number of pairs of brackets of a pattern.
pub const MAX_BRACKETS: u32 = 1_024;

/// A qualifier of a pattern (STIX 2.1, section 9.5.1).
#[derive(Clone, Copy, Debug)]
pub enum Limit {
    /// `WITHIN x SECONDS`.
    Within(u32),
    /// `REPEATS n TIMES`.
    Repeats(u32),
    /// `START .. STOP ..`.
    Between(Instant, Instant),
}
