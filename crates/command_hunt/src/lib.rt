//! The program `stix_hunt`: matches many indicators over one log. The indicators come from a file,
//! or from the first bundle of the input. Each hit is written before the next line is read. At the
//! end, a report gives the sightings of each indicator that was seen.
//!
//! ```text
//! // stix_hunt [--indicators FILE] TIME [CAP]
//! let status = run_hunt(alloc, &arguments, &mut files, &mut stdin, &mut stdout, &mut stderr);
//! ```
#![tactic(auto)]

mod arguments;
mod ending;
mod run;

pub use ending::HuntEnding;
pub use run::run_hunt;
