//! Parses TAXII 2.1 requests: the endpoint of the path (sections 4 and 5), the filters and the page
//! of the query (sections 3.4 and 3.5), and the media types of the header fields (section 1.6.8).
//!
//! Parsing is exact: a path has at most one route, and a query has one meaning or one refusal, that
//! of its first invalid parameter. Unknown parameters are ignored.
//!
//! ```text
//! let (path, query) = split_target("/api/collections/91a7b528/objects/?limit=10");
//! let route = routes.route(path)?;                       // Route::Objects("91a7b528")
//! let query = read_query(alloc, query.unwrap_or(""))?;   // query.limit == Some(10)
//! ```
#![tactic(auto)]

mod endpoint;
pub mod laws;
mod media_type;
mod members;
mod param;
mod query;
mod refusal;
mod route;
mod routes;
mod target;
mod value;
mod whitespace;

pub use media_type::{accepts, is_taxii};
pub use param::Param;
pub use query::{Query, read_query};
pub use refusal::QueryRefusal;
pub use route::Route;
pub use routes::Routes;
pub use stix_ids::Pick;
pub use target::split_target;
