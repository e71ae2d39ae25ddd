//! Joins of partial matches in a streaming matcher, and what prunes them (STIX 2.1, section 9.5).
//!
//! A matcher stores what may still become part of a binding. It has a store for each side of an
//! `AND` and a `FOLLOWEDBY`, and one for each level of a `REPEATS` below its count.
//!
//! - **Windows.** `windows` computes the window of each store from the qualifiers above it, and
//!   `expired` decides when a partial match has left it. `store` keeps partial matches in a 4-ary
//!   heap by their earliest time, so that dropping the expired ones costs a logarithm each, and a
//!   search for what begins by a time skips the rest.
//! - **Joins.** `join` joins what is new on one side with what is stored on the other. Where both
//!   sides are long, `skip_index` skips blocks of candidates that share an observation with the
//!   query, so only disjoint ones are tried.
//! - **Need.** On the right of `FOLLOWEDBY` a partial match is made only if `needed` finds a
//!   completion above it. It tries a greedy completion and an admissible bound (times, and Hall's
//!   condition by Kuhn's augmenting paths in `matching`) before its exhaustive search.
//!
//! ```text
//! let windows = windows(alloc, &pattern)?; // one for each store, in the order of `stores_of`
//! let drop = expired(&window, earliest, now); // `now`: the end of the last observation
//! ```
#![tactic(auto)]

mod block;
mod completion_bound;
mod earliest_start;
mod expiry;
mod greedy_completion;
mod heap;
pub mod join;
pub mod join_filter;
mod joining;
mod key;
mod matching;
pub mod needed;
pub mod numbers;
pub mod partial_match;
pub mod pending_left;
mod query;
pub mod row;
mod skip_index;
pub mod stop;
pub mod store;
mod window;

pub use expiry::expired;
pub use window::{Window, windows};
