//! The engine of the hunter: evaluates many STIX patterns over one log (STIX 2.1, section 9), at a
//! cost per observation that doesn't grow with their number.
//!
//! An `Engine` takes the observations of a log one by one, and answers to each the bindings that
//! end there, by the pattern's index in the hunted list. An inverted index (`hunt_index`) finds the
//! brackets (observation expressions) that can hold; only their patterns are touched. The matcher
//! of any other pattern is updated lazily, when one of its brackets next holds. A `Memo` keeps
//! which brackets hold at each root of a bundle, so that a root shared by several observations is
//! evaluated once, unless the memo was emptied in between. Each bracket is evaluated at a batch of
//! roots together, so that objects they reference in common are searched once. The bindings are
//! those of `match_bindings`.
//!
//! ```text
//! let mut engine = Engine::new(alloc, &hunted, 100_000)?;
//! let mut memo = Memo::of(alloc, &observations)?; // one for each bundle
//! for observation in &observations {
//!     let hits = engine.take(observation, &bundle, &mut memo)?; // of each: hit.hunted, hit.bind
//! }
//! ```
#![tactic(auto)]

mod bracket_tests;
mod brackets;
mod engine;
mod evaluation;
mod found;
mod holding;
pub mod laws;
mod lazy_matcher;
mod lazy_matchers;
mod memo;
mod memoizing;
mod next_row;
mod refusal;
mod root_batch;

pub use engine::Engine;
pub use found::Hit;
pub use memo::Memo;
pub use refusal::EngineRefusal;
