//! The program `stix_command`: executes a command line. It matches STIX 2.1 patterns over observed
//! data, validates bundles, and serves TAXII 2.1 over a store. [`run`] is what the program's `main`
//! calls.
//!
//! ```text
//! let status = run(alloc, &arguments, &mut stdin, &mut stdout, &mut stderr,
//!     &mut door, &mut keeper, &mut clock);
//! ```
#![tactic(auto)]

mod ending;
mod opening;
mod program;
mod serve_ending;
mod service;
mod summary;

pub use ending::Ending;
pub use program::run;
pub use serve_ending::ServeEnding;
pub use service::serve;
