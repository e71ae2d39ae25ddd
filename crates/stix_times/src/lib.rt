//! Timestamps of STIX 2.1, section 2.16: the `date-time` of RFC 3339, section 5.6, in UTC. `read`
//! returns the instant of a text, or the exact reason why the text names none. `write` gives the
//! one canonical text of an instant. Nothing here allocates.
//!
//! ```ignore
//! let instant = read("2026-01-01T00:00:00.5Z")?;
//! let mut out = [0u8; 32];
//! let length = write(instant, &mut out);
//! assert_eq!(&out[..length], b"2026-01-01T00:00:00.5Z");
//! ```
#![tactic(auto)]

mod civil;
mod fraction;
mod instant;
pub mod laws;
mod line;
mod offsets;
mod parts;
mod reading;
mod refusal;
mod writing;

pub use instant::{Instant, from_micros, from_nanos, nanos};
pub use reading::{read, read_millis};
pub use refusal::TimeRefusal;
pub use writing::{write, write_micros, write_millis};
