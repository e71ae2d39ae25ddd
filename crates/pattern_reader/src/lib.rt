//! Reads STIX 2.1 patterns (section 9). `read_pattern` runs the lexer, the parser and the analysis
//! of values, and returns the pattern, or the first reason why the text isn't one, with its byte
//! offset.
//!
//! `meaning_of` is the last step: it turns a syntax tree into a `Pattern`, converts constants, and
//! checks limits and object types.
//!
//! ```ignore
//! match read_pattern(alloc, "[file:name = 'a.exe']") {
//!     Ok(pattern) => handle(pattern),
//!     Err(refusal) => report(refusal.name(), refusal.at()), // "Syntax", Some(5)
//! }
//! ```
#![tactic(auto)]

mod analysis;
mod checks;
mod constants;
mod limits;
mod meaning;
pub mod meaning_laws;
mod narrow_pattern;
mod order;
mod outcomes;
mod paths;
mod pattern_refusal;
mod patterns;
mod read;
pub mod reader_laws;
mod roots;
mod value_refusal;

pub use meaning::Meaning;
pub use pattern_refusal::PatternRefusal;
pub use pattern_types::{Check, Constant, Leaf, Path, Pattern, Step, Test, leaf_count};
pub use patterns::meaning_of;
pub use read::{MAX_TEXT, read_pattern};
pub use value_refusal::ValueRefusal;
