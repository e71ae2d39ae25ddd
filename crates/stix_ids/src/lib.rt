//! Identifiers of STIX 2.1, section 2.9: a kind (the name of an object type, section 3.1), `--` and
//! a UUID of RFC 4122 in hyphenated form. `read_id` returns an owned `Id`, or the exact reason why
//! the text isn't one. `IdRef` borrows from the text and allocates nothing. `write_id` gives the
//! one canonical text.
//!
//! `Pick` is the `match[version]` of TAXII 2.1, section 3.4.
//!
//! ```ignore
//! let id = read_id(alloc, "tool--8e2e2d2b-17d4-4cbf-938f-98ee46b3cd3f")?;
//! assert_eq!(id.kind.as_str(), "tool");
//! let text = write_id(alloc, &id)?;
//! ```
#![tactic(auto)]

mod hyphenated;
mod id;
mod kind;
pub mod laws;
mod parts;
mod pick;
mod reading;
mod refusal;
mod writing;

pub use hyphenated::{read_uuid, write_uuid};
pub use id::Id;
pub use kind::read_kind;
pub use parts::IdRef;
pub use pick::Pick;
pub use reading::{is_of_kind, is_text_of, read_id};
pub use refusal::IdRefusal;
pub use writing::write_id;
