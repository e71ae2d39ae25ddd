use crate::PathTree;
use flow_values::Items;
use pattern_lexer::Token;

/// The test of a value (STIX 2.1, section 9.6.1).
#[derive(Debug, Drop)]
pub enum CheckTree {
    /// `=`, `!=`, `<`, `<=`, `>` or `>=` and a constant.
    Compare { operator: Token, constant: Token },
    /// `IN ( .. )`: the constants.
    Among(Items<Token>),
    /// `LIKE`, `ISSUBSET` or `ISSUPERSET` and a text.
    Textual { operator: Token, words: Token },
    /// `EXISTS`.
    Exists,
}

/// One comparison: an object path, and a test of the values there.
#[derive(Debug, Drop)]
pub struct TestTree {
    /// Its first token: the path's, or EXISTS or NOT.
    pub first: Token,
    /// The path to the values.
    pub path: PathTree,
    /// Whether `NOT` is written.
    pub negated: bool,
    /// The test.
    pub check: CheckTree,
}

/// The comparison expression in the brackets of a pattern (STIX 2.1, section 9.6): conjunctions,
/// joined by `OR`. A chain is a list, so the tree is no deeper than its parentheses.
#[cycle(comparison)]
#[derive(Debug, Drop)]
pub struct ComparisonTree {
    /// The first conjunction.
    pub first: Conjunction,
    /// The others, in order.
    pub others: Items<Conjunction>,
}

/// Operands, joined by `AND`.
#[cycle(comparison)]
#[derive(Debug, Drop)]
pub struct Conjunction {
    /// The first operand.
    pub first: Operand,
    /// The others, in order.
    pub others: Items<Operand>,
}

/// An operand of `AND`.
#[cycle(comparison)]
#[derive(Debug, Drop)]
pub enum Operand {
    /// A single test.
    Test(TestTree),
    /// A comparison expression in parentheses, with its opening one.
    Group(Token, Box<ComparisonTree>),
}
