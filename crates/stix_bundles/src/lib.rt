//! Bundles of STIX 2.1 (section 8). `read_bundle` turns a JSON value into a `Bundle`, or returns
//! all violations of its objects. `find` resolves an identifier to its latest version (section
//! 3.6). `observations` lists the observed-data objects (section 4.14) by time, with the objects
//! that they refer to.
//!
//! Lookups use an index from identifiers to positions: a B-tree map, or a linear search in a bundle
//! of up to four objects. A lookup reads an object's properties by binary search.
//!
//! ```ignore
//! let bundle = read_bundle(alloc, read_json(alloc, bytes)?)?;
//! if let Some(at) = find(&bundle, "file--364fe3e5-b1f4-5ba3-b951-ee5983b3538d") {
//!     let file = object(&bundle, at);
//! }
//! let seen = observations(alloc, &bundle, 0)?;
//! ```
#![tactic(auto)]

mod bundle;
mod index;
mod last_time;
mod latest;
pub mod laws;
mod lookup;
mod object_break;
mod observation;
mod observe;
mod outline;
mod positions;
mod property;
mod read;
mod refusal;

pub use bundle::{Bundle, object};
pub use lookup::find;
pub use object_break::ObjectBreak;
pub use observation::{Observation, ObservationRefusal};
pub use observe::observations;
pub use outline::MAX_OBJECTS;
pub use read::read_bundle;
pub use refusal::BundleRefusal;
