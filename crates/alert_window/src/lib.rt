//! A sliding window over the matches of one bracket: at which observations do n matches lie within
//! x seconds?
//!
//! Such an observation is an alert: a binding of the bracket with `REPEATS n TIMES` and `WITHIN x
//! SECONDS` (STIX 2.1, section 9.5) ends there. A `Watch` takes the observations one by one, and
//! answers for each whether it is one. It keeps at most n matches, those that began last. That is
//! enough, since of all matches these reach back the least. So a long repetition costs little
//! memory.
//!
//! ```text
//! let mut watch = Watch::new(alloc, 3, 60)?; // 3 matches within 60 seconds
//! let is_alert = watch.take(first, last, holds)?;
//! ```
#![tactic(auto)]

mod kept_rows;
pub mod laws;
mod matching_row;
mod refusal;
mod watch;

pub use matching_row::MatchingRow;
pub use refusal::WatchRefusal;
pub use watch::Watch;
