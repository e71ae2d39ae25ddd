//! A `taxii_rows::Keeper` over SQLite: the rows of a TAXII 2.1 server's store in a database file
//! with its write-ahead log. With an empty path it stores nothing, and the server's library alone
//! holds the rows.
//!
//! Contracts do not observe the rows themselves. They state which statements of `schema.rt` were
//! executed, in which order and with which columns, each change alone in a committed transaction
//! (`specs/Statements.antt`). They also state that exactly the faults are counted. The database may
//! have held anything before; it becomes a store of the layout in `specs/Forms.antt`, or the call
//! fails.
//!
//! After `Ok` the whole change is committed. After an error the database is unchanged, or a disk
//! failure has closed it and no later call succeeds (see `laws`). What a statement does is
//! specified by the crate `sqlite`. That these statements together keep a store's rows is only
//! tested.
//!
//! ```text
//! let mut keeper = SqliteKeeper::new(rt, Unknown);
//! let library = Library::load(alloc, &mut keeper, "store.db")?;
//! // serve requests, then copy the log into the file
//! keeper.close()?;
//! ```
#![tactic(auto)]

mod change;
mod connection;
mod failure;
mod file;
mod keeper;
pub mod laws;
mod layout;
mod row;
mod schema;
mod statements;

pub use keeper::SqliteKeeper;
pub use sqlite::{Files, Start, Unknown};
