//! The store of a TAXII 2.1 server: all rows of a keeper in memory, with additions, deletions and
//! pages (sections 3.4 and 5.5).
//!
//! A change is planned first, which allocates all memory, and then committed to the keeper and the
//! library together. After an error both are unchanged.
//!
//! Pagination is by cursor: `next` is the date of the last row of the page before. Dates are
//! unique, ascend and are never reused. So a client that follows `next` receives each row once,
//! whatever is added or deleted meanwhile (`walk_laws`). A page copies no row.
//!
//! ```text
//! let mut library = Library::load(alloc, &mut keeper, "store.db")?;
//! let planned = library.plan_add(collection, now_micros, objects)?;
//! library.commit_add(&mut keeper, planned)?;
//! let page = page_of(alloc, &library, collection, None, &query)?; // page.rows, page.more
//! ```
#![tactic(auto)]

mod add_outcome;
mod asked;
mod candidates;
mod cursor;
mod delete;
mod draft;
mod id_set;
mod library;
mod load;
mod load_refusal;
mod page;
pub mod page_laws;
mod pick_set;
mod plan;
mod plan_refusal;
mod planned;
mod shifted;
pub mod store_laws;
mod text_set;
pub mod walk_laws;

pub use add_outcome::AddOutcome;
pub use library::Library;
pub use load_refusal::LoadRefusal;
pub use page::{Page, page_of};
pub use pick_set::PickSet;
pub use plan_refusal::PlanRefusal;
pub use planned::Planned;
