//! JSON (RFC 8259) for STIX 2.1: values with integers only, and without null. `read_json` parses
//! and checks a text in one pass. It returns the value, or the first error with its path.
//! `write_json` writes compact JSON that reads back as the same value.
//!
//! Reading is defined by `serde_json`'s specification. Strings are slices of the source text and
//! share it (`JsonText`).
//!
//! ```ignore
//! let value = read_json(alloc, br#"{"type":"tool","name":"nmap"}"#)?;
//! let name = text_at(&value, "name"); // Some("nmap")
//! let text = write_json(alloc, &value)?;
//! ```
#![tactic(auto)]

mod checked;
mod elements;
mod entries;
mod entry;
mod envelope;
mod fields;
mod first_error;
mod json_reader;
mod json_text;
pub mod laws;
mod limits;
mod location;
mod lookup;
mod number;
mod ordered;
mod property;
mod property_value;
mod raw_members;
mod read;
mod read_error;
mod refusal;
mod tokens;
mod value;
mod value_error;
mod write;

pub use entries::read_entries;
pub use entry::Entry;
pub use envelope::{Envelope, read_envelope};
pub use json_reader::JsonReader;
pub use json_text::JsonText;
pub use limits::{MAX_LEVELS, MAX_SAFE_INTEGER};
pub use lookup::{get, get_ordered, take};
pub use ordered::is_ordered;
pub use property::{list_at, list_of, text_at, text_of};
pub use read::{read_json, read_owned};
pub use refusal::JsonRefusal;
pub use value::{Field, Json};
pub use write::{write_json, write_json_with_capacity};
