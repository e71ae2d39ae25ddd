//! Writes STIX 2.1 patterns (section 9). `write_pattern` returns the one canonical text of a
//! pattern: single spaces between words, and only the parentheses that precedence requires. Reading
//! the text gives back the pattern (`laws`).
//!
//! ```ignore
//! let pattern = read_pattern(alloc, "[ (file:size=25) ]")?;
//! let text = write_pattern(alloc, &pattern)?;
//! assert_eq!(text.as_str(), "[file:size = 25]");
//! ```
#![tactic(auto)]

mod checks;
mod constants;
pub mod laws;
mod leaves;
mod limits;
mod parts;
mod paths;
mod patterns;
mod words;

pub use patterns::write_pattern;
