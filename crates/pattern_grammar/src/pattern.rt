use crate::{ComparisonTree, Qualifier};
use flow_values::Items;

/// The syntax tree of a pattern (STIX 2.1, sections 9.3 to 9.5): leaves, joined by observation
/// operators and limited by qualifiers. A chain of one operator is one node of any length, so the
/// tree is no deeper than its parentheses and qualifiers. Parentheses have no node.
#[derive(Debug, Drop)]
pub enum PatternTree {
    /// `[ .. ]`.
    Leaf(ComparisonTree),
    /// `AND` between observations: the first operand, and the others.
    Both(Box<PatternTree>, Items<PatternTree>),
    /// `OR` between observations: the first operand, and the others.
    Either(Box<PatternTree>, Items<PatternTree>),
    /// `FOLLOWEDBY`: the first operand, and the others.
    Then(Box<PatternTree>, Items<PatternTree>),
    /// A pattern with a qualifier.
    Qualified(Box<PatternTree>, Qualifier),
}
