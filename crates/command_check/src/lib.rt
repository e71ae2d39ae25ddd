//! The command `check`: validates a STIX bundle. It reports which rules of STIX 2.1 its objects
//! violate, then the rules for versions and granular markings (sections 3.6 and 7.2), or else the
//! number of valid objects.
//!
//! ```text
//! let ending = check(alloc, &mut stdin, &mut stdout); // writes "ok 3 objects\n"
//! ExitCode::from(ending.status())
//! ```
#![tactic(auto)]

mod checking;
pub mod laws;
mod validating;
mod verdict;
mod verdict_text;

pub use checking::{CheckEnding, check};
pub use verdict::Verdict;
