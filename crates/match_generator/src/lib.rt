//! A generated log for smoke tests and benchmarks of the matcher: a byte source that produces its
//! lines as they are read, from a seed and a number of lines.
//!
//! Each line is a bundle with one observation. A linear congruential generator draws how many
//! seconds it follows the one before, and the digit of the login that it observes. Nothing here
//! fails or takes memory.
//!
//! ```text
//! let mut log = GeneratedLog::new(42, 1_000);
//! let count = log.read(&mut buffer)?; // as from any `Source`
//! ```
#![tactic(auto)]

mod generator;
pub mod laws;
mod line;
mod log;

pub use log::{GeneratedLog, MAX_COUNT, MAX_SEED};
