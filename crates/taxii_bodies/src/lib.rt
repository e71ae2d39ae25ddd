//! The response bodies of a TAXII 2.1 server (sections 3.6, 3.7, 4 and 5) as compact JSON with
//! names in byte order. Each body is a function of its arguments: the contract states its JSON
//! value.
//!
//! An envelope's objects are copied as stored text, without parsing. `laws` proves that the result
//! is JSON all the same.
//!
//! ```text
//! let page = page_of(alloc, &library, collection, None, &query)?;
//! let body = envelope_body(alloc, &page.rows, page.more)?;
//! // {"more":true,"next":"0005c6a1f3b2d400","objects":[{..},..]}
//! ```
#![tactic(auto)]

mod collections;
mod details;
mod discovery;
mod envelope;
mod fields;
pub mod laws;
mod manifest;
mod page;
mod problem;
mod status;
mod times;
mod title;
mod versions;

pub use collections::{CollectionInfo, collection_body, collections_body};
pub use details::{Detail, failure_detail, refused_detail, success_detail};
pub use discovery::{discovery_body, root_body};
pub use envelope::{envelope_body, last_date};
pub use manifest::manifest_body;
pub use problem::{Problem, problem_body};
pub use status::{StatusReport, status_body, status_id};
pub use title::title_body;
pub use versions::versions_body;
