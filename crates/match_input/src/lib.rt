//! Reads the input of a matcher: bundles of STIX 2.1 (section 8), one per line or one in all, with
//! their observations numbered through the whole input.
//!
//! A `Reader` returns the bundles in turn, and stops at the first line that it refuses. Its result
//! is a function of the bytes alone, however they are cut into reads (`laws`).
//! `write_input_refusal` writes why a line is refused.
//!
//! ```text
//! let mut reader = Reader::new(alloc, Mode::Lines)?;
//! while let Some(batch) = reader.next(&mut source)? {
//!     // batch.line, batch.bundle, batch.observations
//! }
//! ```
#![tactic(auto)]

mod batch;
mod bundle_line;
pub mod laws;
mod mode;
mod progress;
mod read_end;
mod reader;
mod reason;
mod refusal_text;
mod rule;
mod stage;

pub use batch::Batch;
pub use mode::Mode;
pub use read_end::ReadEnd;
pub use reader::Reader;
pub use refusal_text::write_input_refusal;
pub use rule::InputRule;
pub use stage::Stage;
