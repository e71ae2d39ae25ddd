//! A streaming matcher for STIX patterns (STIX 2.1, section 9): it takes the observations of a log
//! one by one, and answers to each the bindings that end there.
//!
//! It evaluates the pattern as a streaming join over partial matches, as the engines of complex
//! event processing (CEP) do. Each operator is a node with stores of partial matches. A row that a
//! bracket matches enters at its leaf, and each node joins what is new with what it stored before.
//! A store drops what has expired by the qualifiers `WITHIN`, `START` and `STOP`, and what no later
//! row can complete. The contracts say that a `Matcher` retains exactly what can still become part
//! of a binding, and answers every binding, each once. Memory stays within `retained_limit` partial
//! matches.
//!
//! `match_pruning` has the stores and joins, and what keeps dense logs affordable. `laws` states
//! that the answers to the rows of a log, concatenated, are the listing of `match_bindings`.
//!
//! ```text
//! let mut matcher = Matcher::new(alloc, &pattern, 100_000)?;
//! for row in rows {
//!     let bindings = matcher.take(row.first, row.last, row.truths)?; // those that end here
//! }
//! let kept = matcher.kept()?; // numbers of the rows that later bindings may still use
//! ```
#![tactic(auto)]

mod budget;
mod ending;
mod expired;
pub mod laws;
mod leaves;
mod level_step;
mod levels;
mod matcher;
mod node;
mod row_numbers;
mod run;
mod sides;

pub use ending::{Ending, MatchRefusal};
pub use matcher::Matcher;
