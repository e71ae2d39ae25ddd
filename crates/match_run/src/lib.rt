//! Runs a matcher over an input: from the bytes in to the lines of the bindings out.
//!
//! `match_stream` reads an input bundle by bundle, gives each observation to a matcher, and writes
//! the line of each binding that ends there. `follow` does the same for any `Watcher`. It reads the
//! bundles with `next_bundle`, one for each line (STIX 2.1, section 8), and the watcher writes a
//! text about each. `Pending` buffers these texts.
//!
//! Both write everything about a bundle before they read more than its line. What they write is a
//! function of the bytes alone, however these are cut into reads. They stop at the end of the
//! input, at the first refused line, or where the matcher exceeds its limit or the watcher stops.
//!
//! ```text
//! let mut matcher = Matcher::new(alloc, &pattern, 100_000)?;
//! let end = match_stream(alloc, &mut matcher, &mut input, &mut output, Mode::Lines); // a MatchEnd
//! ```
#![tactic(auto)]

mod answers;
mod batch;
mod cut_short;
mod lines;
pub mod listing_laws;
mod match_end;
mod next;
mod pending;
mod run;
mod see_end;
mod stream;
mod tally;
mod watch_end;
pub mod watch_laws;
mod watcher;

pub use cut_short::CutShort;
pub use match_end::MatchEnd;
pub use match_input::{Batch, InputRule, Mode, ReadEnd, Reader};
pub use match_stream::Matcher;
pub use next::next_bundle;
pub use pending::Pending;
pub use run::follow;
pub use see_end::SeeEnd;
pub use stream::match_stream;
pub use watch_end::WatchEnd;
pub use watcher::Watcher;
