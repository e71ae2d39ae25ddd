//! The command `make`: matches a fixed pattern over a generated log, and writes the size of the
//! listing. It makes runs reproducible without a file.
//!
//! ```text
//! let ending = make(alloc, 0, 100_000, &mut stdout); // "observations .. bindings .. last ..\n"
//! ```
#![tactic(auto)]

mod making;

pub use making::{MakeEnding, make};
