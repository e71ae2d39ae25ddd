//! The program `stix_mirror`: copies a collection of a TAXII 2.1 server page by page into a store.
//! A lost page is requested again, and none is absorbed twice.
//!
//! ```text
//! // stix_mirror HOST PORT ROOT COLLECTION FILE TRIES [--since TIME]
//! let status = run_mirror(alloc, &arguments, &mut dial, &mut keeper, &mut clock, &mut stdout,
//!     &mut stderr);
//! ```
#![tactic(auto)]

mod arguments;
mod ending;
mod run;
mod summary;

pub use ending::MirrorEnding;
pub use run::run_mirror;
