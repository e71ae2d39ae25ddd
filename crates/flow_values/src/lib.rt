//! The values that every crate of this repository shares. `Text` and `Items` are a `String` and a
//! `Vec` whose value in contracts is a plain list. `Name` is the name of a property or of an object
//! type. `Fault` (I/O failed) and `NoMemory` (out of memory) are the two errors that belong to no
//! single layer.
//!
//! `Name` interns the names of STIX 2.1 (sections 3.2 and 4 to 7) and TAXII 2.1 in a static table,
//! so nearly every name allocates nothing.
//!
//! ```ignore
//! let name = Name::from_text(alloc, "created_by_ref")?; // an index into the table
//! let mut text = Text::from_text(alloc, name.as_str())?;
//! text.push(" = ")?;
//! let mut items: Items<u8> = Items::new(alloc);
//! items.push(b'a')?;
//! ```
#![tactic(auto)]

mod fault;
mod items;
mod name;
mod no_memory;
mod text;

pub use fault::Fault;
pub use items::Items;
pub use name::Name;
pub use no_memory::NoMemory;
pub use text::Text;
