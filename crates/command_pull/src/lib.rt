//! The program `stix_pull`: fetches all objects of a collection of a TAXII 2.1 server, and writes
//! them as lines of JSON. Each page is written before the next one is requested.
//!
//! ```text
//! // stix_pull HOST PORT ROOT COLLECTION [LIMIT]
//! let status = run_pull(alloc, &arguments, &mut dial, &mut stdout, &mut stderr);
//! ```
#![tactic(auto)]

mod arguments;
mod ending;
mod pulling;
mod run;
mod writing;

pub use ending::PullEnding;
pub use run::run_pull;
