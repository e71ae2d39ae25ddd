//! Validates one STIX 2.1 object (sections 2 to 7): the properties of its type, their types, and
//! the constraints between them. `breaks` returns every violation, as a `Break`: the broken rule,
//! and the path to the value that breaks it.
//!
//! The rules are data: the tables of `tables` have a row for each requirement of the standard, and
//! one interpreter (`check`) evaluates them. The modules of specs/ state the same tables
//! independently.
//!
//! ```ignore
//! let value = read_json(alloc, bytes)?;
//! for found in breaks(alloc, &value)?.as_slice() {
//!     report(found.rule.name(), found.path.as_str()); // "BadTime", "valid_from"
//! }
//! ```
#![tactic(auto)]

mod check;
mod condition;
mod form;
mod groups;
mod identifier;
mod kinds;
pub mod laws;
mod list;
mod marking;
mod object;
mod object_type;
mod records;
mod report;
mod row;
mod row_break;
mod rule;
mod rule_break;
mod single;
mod tables;
mod timestamp;

pub use form::Precision;
pub use groups::Group;
pub use identifier::object_id;
pub use kinds::{group, group_before};
pub use report::breaks;
pub use rule::Rule;
pub use rule_break::Break;
pub use timestamp::timestamp_at;
