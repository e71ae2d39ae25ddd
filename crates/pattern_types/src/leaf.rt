use crate::{Check, Path};
use flow_values::Items;

/// The comparison expression in the brackets of a pattern: tests, joined by `AND` and `OR` (STIX
/// 2.1, section 9.6).
#[derive(Debug, Drop)]
pub enum Leaf {
    /// A single test.
    Test(Test),
    /// `AND` between comparisons: all parts hold.
    All(Items<Leaf>),
    /// `OR` between comparisons: at least one part holds.
    Any(Items<Leaf>),
}

/// One comparison: an object path, and a test of the values there.
#[derive(Debug, Drop)]
pub struct Test {
    /// The path to the values.
    pub path: Path,
    /// Whether `NOT` is written, which negates the result.
    pub negated: bool,
    /// The test of a value.
    pub check: Check,
}
