//! The rows of a TAXII 2.1 server's store. A row is an object in a collection, with the date when
//! it was added (section 3.4). It contains the object's identifier, its version (STIX 2.1, sections
//! 2.9 and 3.2) and its compact JSON text.
//!
//! `Keeper` is the trait of the persistent storage. Its contract states the rows, the watermark
//! (the last date ever given) and the name of the store, and counts faults.
//!
//! ```text
//! if let Some(described) = describe(alloc, &object)? {
//!     let row = described.into_row(date, collection);
//!     keeper.append(&[row], date)?;
//! }
//! ```
#![tactic(auto)]

mod by_date;
mod described;
mod fault_cause;
mod keeper;
mod keeper_refusal;
pub mod laws;
mod sound;
mod stored_row;
mod type_set;
mod version;

pub use by_date::{row_after, row_at};
pub use described::{Described, describe};
pub use fault_cause::FaultCause;
pub use keeper::Keeper;
pub use keeper_refusal::KeeperRefusal;
pub use sound::is_sound_row;
pub use stored_row::{LAST_DATE, StoredRow};
pub use type_set::TypeSet;
pub use version::version_of;
