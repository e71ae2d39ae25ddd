//! The indicators of a feed: which are hunted at a moment (STIX 2.1, section 4.7)? The latest
//! versions that are valid then, not revoked, and have a STIX pattern that parses.
//!
//! `hunt` answers it for a bundle. `gather` reads a feed with one object per line (STIX 2.1,
//! sections 2 to 7), up to its end or to the first refused line, and answers a `Gathering`. A
//! `Gathering` takes objects one by one, and keeps only what a hunt needs of each indicator, so
//! that a feed may be larger than memory. `write_feed_refusal` writes why a line is refused.
//!
//! ```text
//! let gathering = gather(alloc, &mut source)?;
//! let hunt = gathering.hunt(moment)?; // `hunted` has parsed patterns, `skipped` the reasons
//! ```
#![tactic(auto)]

mod bundle;
mod candidates;
mod end;
mod feed;
mod feed_object;
mod gathering;
mod hunted;
mod indicator_object;
mod kept;
pub mod laws;
mod refusal_text;
mod rule;
mod version;

pub use bundle::hunt;
pub use end::FeedEnd;
pub use feed::gather;
pub use gathering::Gathering;
pub use hunted::{Hunt, Hunted, Skipped};
pub use refusal_text::write_feed_refusal;
pub use rule::FeedRule;
