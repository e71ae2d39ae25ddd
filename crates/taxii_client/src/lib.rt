//! A client of a TAXII 2.1 server: it pulls the objects of a collection page by page (sections 3.4,
//! 3.7 and 5.4), and can copy them into a local store.
//!
//! [`fetch`] requests one page over an open link. [`Pull`] iterates over all pages by cursor
//! pagination, with a new connection per page; after a failure it can retry the same page.
//! `Mirror::absorb` adds a page to a store, whole or not at all, so a page that arrives twice
//! changes nothing. `copy` combines both, and retries lost fetches.
//!
//! ```text
//! let mut pull = Pull::new(alloc, &target);
//! while let Some(entries) = pull.next_page(&mut dial)? {
//!     // each entry is Entry::Good(json) or Entry::Bad(refusal)
//! }
//! ```
#![tactic(auto)]

mod copying;
mod cursor;
mod fetch_end;
mod fetching;
mod mirror;
pub mod mirror_laws;
mod page_end;
mod partitioned;
mod pull;
pub mod pull_laws;
mod reply_refusal;
mod request;
mod stop;
mod store_refusal;
mod tally;
mod target;
mod totals;

pub use copying::copy;
pub use cursor::Cursor;
pub use fetch_end::FetchEnd;
pub use fetching::fetch;
pub use mirror::Mirror;
pub use page_end::PageEnd;
pub use pull::{MAX_PAGES, Pull};
pub use reply_refusal::ReplyRefusal;
pub use request::request_text;
pub use stop::{CopyStop, FetchStop};
pub use store_refusal::StoreRefusal;
pub use tally::Tally;
pub use target::Target;
pub use totals::Totals;
