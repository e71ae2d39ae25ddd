//! Hunts over a log, and reports the hits: the bindings of the indicators' patterns, each written
//! as it ends, and sightings at the end (STIX 2.1, section 5.2).
//!
//! A `Hunter` is a `Watcher` of an input. It writes the line of each hit before more is read, and
//! counts for each indicator how often it was seen, and when first and last. `write_report` writes
//! these counts as an envelope of sightings, one at a time, so that they needn't fit in memory
//! together. `write_skipped` writes the indicators whose patterns don't parse. `sighting` and
//! `sighting_text` make a single sighting, which breaks no rule of its type.
//!
//! ```text
//! write_skipped(alloc, hunt.skipped.as_slice(), &mut output)?;
//! let mut hunter = Hunter::new(alloc, hunt.hunted.as_slice(), 100_000)?;
//! let end = follow(&mut reader, &mut hunter, &mut input, &mut output); // a WatchEnd
//! write_report(alloc, &hunter, moment, &mut output)?;
//! ```
#![tactic(auto)]

mod fields;
pub mod hit_laws;
mod hit_line;
mod hit_summary;
mod hunter;
mod moment;
mod object;
mod over_limit;
mod report;
mod seen;
pub mod sighting_laws;
mod skipped;
mod times;

pub use hit_summary::HitSummary;
pub use hunter::Hunter;
pub use object::{sighting, sighting_text};
pub use over_limit::OverLimit;
pub use report::write_report;
pub use seen::{MAX_COUNT, SightingInput};
pub use skipped::write_skipped;
