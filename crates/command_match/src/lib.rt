//! The command `match`: writes the bindings of a STIX pattern over observed data, one per line
//! (STIX 2.1, section 9).
//!
//! ```text
//! let ending = match_bindings(alloc, request, &mut stdin, &mut stdout);
//! ending.write_reason(&mut stderr)?;
//! ExitCode::from(ending.status())
//! ```
#![tactic(auto)]

mod matching;

pub use matching::{MatchEnding, match_bindings};
