use crate::Block;
use flow_values::Text;

/// The constant of `ISSUBSET` and `ISSUPERSET` (STIX 2.1, section 9.6.1): its text, and the parsed
/// block, so that matching doesn't parse it again.
#[derive(Debug, Drop)]
pub struct AddressBlock {
    /// The text, as `198.51.100.0/24`.
    pub text: Text,
    /// The block that the text names.
    pub block: Block,
}
