use crate::Leaf;
use stix_times::Instant;

/// A pattern (STIX 2.1, sections 9.3 to 9.5): leaves, joined by observation operators and limited
/// by qualifiers. Parentheses have no node.
#[derive(Debug, Drop)]
pub enum Pattern {
    /// `[ .. ]`: one observation meets the comparison expression.
    Leaf(Leaf),
    /// `AND` between observations: both sides match, by different observations.
    Both(Box<Pattern>, Box<Pattern>),
    /// `OR` between observations: at least one side matches.
    Either(Box<Pattern>, Box<Pattern>),
    /// `FOLLOWEDBY`: both sides match, and the second no earlier than the first.
    Then(Box<Pattern>, Box<Pattern>),
    /// `WITHIN x SECONDS`: the observations are less than `x` seconds apart.
    Within(Box<Pattern>, u32),
    /// `START .. STOP ..`: the observations are in this time span, which excludes its end.
    Between(Box<Pattern>, Instant, Instant),
    /// `REPEATS n TIMES`: the pattern matches `n` times, by different observations.
    Repeats(Box<Pattern>, u32),
}
