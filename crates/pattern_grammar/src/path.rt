use flow_values::Items;
use pattern_lexer::Token;

/// One step of an object path.
#[derive(Clone, Copy, Debug, PartialEq, Eq)]
pub enum StepTree {
    /// `.name`, or `.'name'`.
    Name(Token),
    /// `[n]` or `[*]`.
    Index(Token),
}

/// An object path (STIX 2.1, section 9.7): an object type, and the steps from the object.
#[derive(Debug, Drop)]
pub struct PathTree {
    /// The type of the object.
    pub root: Token,
    /// The steps; the first one is a name.
    pub steps: Items<StepTree>,
}
