//! Reads an input line by line (`Lines`), however the source splits it into reads, or a short input
//! to its end (`read_whole`).
//!
//! `Lines` loses no byte. It reads from the source only if its buffer has no complete line. A line
//! or an input over its limit is refused, and later calls repeat the refusal. `read_whole` returns
//! at most 67,108,864 bytes, and consumes at most one more read.
//!
//! ```ignore
//! let mut lines = Lines::new(alloc)?;
//! while let Some(line) = lines.next_line(&mut source)? {
//!     handle(line.number, line.bytes.as_slice())?;
//! }
//! ```
#![tactic(auto)]

mod cursor;
pub mod laws;
mod line;
mod lines;
mod raw_line;
mod read_buffer;
mod refusal;
mod whole_input;

pub use line::Line;
pub use lines::Lines;
pub use refusal::{LineRefusal, MAX_INPUT, MAX_LINE};
pub use whole_input::{InputRefusal, MAX_WHOLE_INPUT, read_whole};
