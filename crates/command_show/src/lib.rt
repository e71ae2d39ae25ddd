//! The command `show`: writes the canonical text of a STIX pattern, or reports where it is
//! malformed.
//!
//! ```text
//! let ending = show(alloc, "[ a:b=1 ]", &mut stdout); // writes "[a:b = 1]\n"
//! ```
#![tactic(auto)]

mod showing;

pub use showing::{ShowEnding, show};
