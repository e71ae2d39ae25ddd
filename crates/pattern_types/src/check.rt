use crate::{AddressBlock, Constant};
use flow_values::{Items, Text};

/// The test of a value: a comparison operator with its constants (STIX 2.1, section 9.6.1).
#[derive(Debug, Drop)]
pub enum Check {
    /// `=`: the value equals the constant.
    Equal(Constant),
    /// `!=`: the value doesn't equal the constant.
    Differ(Constant),
    /// `<`: the value is less.
    Less(Constant),
    /// `<=`: it is less or equal.
    LessEqual(Constant),
    /// `>`: the value is greater.
    Greater(Constant),
    /// `>=`: it is greater or equal.
    GreaterEqual(Constant),
    /// `IN ( .. )`: the value equals one of the constants.
    Among(Items<Constant>),
    /// `LIKE`: the value matches the text, where `%` matches any characters and `_` matches one.
    Like(Text),
    /// `ISSUBSET`: the value is an address block within this one.
    Subset(AddressBlock),
    /// `ISSUPERSET`: the value is an address block around this one.
    Superset(AddressBlock),
    /// `EXISTS`: there is a value at the path.
    Exists,
}
