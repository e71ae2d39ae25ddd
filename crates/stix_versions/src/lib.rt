//! Validates a STIX 2.1 bundle across objects. `version_breaks` checks that the versions of each
//! object are consistent (section 3.6). `marking_breaks` checks granular markings (section 7.2.3)
//! and their selectors.
//!
//! `version_breaks` groups versions by object in B-tree maps: O(n log n) lookups for n objects.
//!
//! ```ignore
//! let bundle = read_bundle(alloc, value)?;
//! for found in version_breaks(alloc, &bundle)?.as_slice() {
//!     report(found.object, found.rule.name()); // the position, and "AfterRevoked"
//! }
//! ```
#![tactic(auto)]

mod created;
mod duplicates;
pub mod laws;
mod marking;
mod marking_break;
mod markings;
mod part;
mod revoked;
mod same;
mod selector;
mod version;
mod version_break;
mod versions;

pub use marking_break::{MarkingBreak, MarkingRule};
pub use markings::marking_breaks;
pub use version_break::{VersionBreak, VersionRule};
pub use versions::version_breaks;
