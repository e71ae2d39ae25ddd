//! Bindings: which observations of a log match a STIX pattern, and how (STIX 2.1, sections 9.3 to
//! 9.5).
//!
//! `IsBinding` in specs/Binding.antt is the definition. `check_binding` decides it for one binding
//! without memory, and `listing` computes all bindings of a pattern over a log, each once, in
//! order. A binding is a tree (`Bind`) that mirrors the pattern; its flat list orders it, and its
//! line writes it down. `laws` has the theorems: a pattern has one listing, and different bindings
//! have different flat lists.
//!
//! ```text
//! let mut log = Log::new(alloc);
//! log.push(first, last, truths)?; // of each observation, in the order of their last times
//! let bindings = listing(alloc, &pattern, &log)?;
//! let line = line_of(alloc, &bind)?; // such as "3: L 1 3"
//! ```
#![tactic(auto)]

mod ascending;
mod bind;
mod bindings;
mod bounds;
mod candidates;
mod check;
mod flat_list;
mod join;
pub mod laws;
mod line;
mod log;
mod log_entry;
mod numbers;
mod order;
mod ranked;
mod span;
mod spanned_bind;

pub use bind::Bind;
pub use bindings::listing;
pub use bounds::Bounds;
pub use check::check_binding;
pub use flat_list::flat;
pub use join::{singleton, with_part, with_sides};
pub use line::line_of;
pub use log::Log;
pub use numbers::{are_disjoint, greatest_number};
pub use order::in_order;
