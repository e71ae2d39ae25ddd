//! Error messages on standard error that several commands share. Each is one line, states why a
//! command ended, and is written without allocating.
//!
//! ```text
//! write_bad_row(7, &mut stderr)?; // "store refused: row after 7\n"
//! ```
#![tactic(auto)]

mod bad_row;
mod over_limit;
mod reasons;
mod refusal_text;
mod store_fault;

pub use bad_row::write_bad_row;
pub use over_limit::write_over_limit;
pub use reasons::{write_no_memory, write_pattern_reason, write_read_fault, write_write_fault};
pub use store_fault::write_store_fault;
