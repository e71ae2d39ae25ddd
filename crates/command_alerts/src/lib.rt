//! The program `stix_alerts`: reports each observation at which at least n matches of one
//! observation expression (`[..]`) lie within the last x seconds. Each alert is written before the
//! next line is read. The window is a queue of the last n matches.
//!
//! ```text
//! // stix_alerts PATTERN N SECONDS
//! let status = run_alerts(alloc, &arguments, &mut stdin, &mut stdout, &mut stderr);
//! ```
#![tactic(auto)]

mod alert_line;
mod alerter;
mod arguments;
mod ending;
mod run;

pub use ending::AlertEnding;
pub use run::run_alerts;
