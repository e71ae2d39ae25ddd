//! `--help` and `--version`, for programs whose arguments aren't commands. Either is answered only
//! where it stands alone, so no argument of a request is mistaken for it.
//!
//! ```text
//! // stix_pull --version
//! if let Some(status) = answer_about(&arguments, &ABOUT, &mut stdout, &mut stderr) {
//!     return ExitCode::from(status);
//! }
//! ```
#![tactic(auto)]

mod about;

pub use about::{About, answer_about};
