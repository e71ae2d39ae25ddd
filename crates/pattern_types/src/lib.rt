//! The data types of STIX 2.1 patterns (section 9). `Pattern` is the syntax tree of an observation
//! expression: leaves are comparison expressions (`Leaf`), joined by operators and limited by
//! qualifiers.
//!
//! CIDR blocks are here too: `read_block` parses exactly the forms of RFC 4632, section 3.1, and
//! RFC 4291, sections 2.2 and 2.3. `within` tests inclusion. Neither allocates.
//!
//! ```ignore
//! let outer = read_block("192.0.2.0/24")?;
//! let inner = read_block("192.0.2.17")?;
//! assert!(within(&inner, &outer));
//! let leaves = leaf_count(&pattern); // the number of pairs of brackets
//! ```
#![tactic(auto)]

mod address_block;
mod block;
pub mod block_laws;
mod check;
mod constant;
mod inclusion;
mod leading_bits;
mod leaf;
pub mod leaf_laws;
mod leaves;
mod limit;
mod path;
mod pattern;
mod prefix;
mod prefix_length;
mod text;

pub use address_block::AddressBlock;
pub use block::Block;
pub use check::Check;
pub use constant::Constant;
pub use inclusion::within;
pub use leaf::{Leaf, Test};
pub use leaves::leaf_count;
pub use limit::{Limit, MAX_BRACKETS, MAX_WIDTH};
pub use path::{MAX_STEPS, Path, Step};
pub use pattern::Pattern;
pub use text::read_block;
