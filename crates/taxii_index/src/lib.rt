//! The rows of a TAXII 2.1 server's store in memory, sorted by date (section 3.4), with a hash
//! index by object. The index decides whether an object is already present (section 5.5), and which
//! of its versions a `match[version]` filter selects.
//!
//! To contracts, a collection of rows is just a list. A lookup takes O(k log n) for the k rows of
//! an object. Hashes are keyed with a secret, so clients cannot choose objects with equal hashes.
//! Every row found by hash is compared with the object itself, so a collision cannot change a
//! result. The index holds no copy of a row.
//!
//! ```text
//! let mut rows = HintedRows::new(alloc, keeper.secret());
//! rows.append(loaded)?;
//! let present = rows.duplicate_of(collection, &described); // Option<&StoredRow>
//! ```
#![tactic(auto)]

mod dates;
mod hinted_rows;
mod hints;
mod indexed_rows;
mod keys;
mod names;
mod order;
mod presence;
mod row_index;

pub use hinted_rows::HintedRows;
pub use indexed_rows::IndexedRows;
