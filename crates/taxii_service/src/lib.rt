//! A TAXII 2.1 server's response to one request (sections 3 to 5). From the configuration, the
//! state, the time and the request, [`respond`] computes the response and the next state. The state
//! is the store and the statuses kept; only POST and DELETE change it.
//!
//! All memory is allocated before the keeper is called, so nothing can fail after its `Ok`. Each
//! posted entry is checked by itself: an invalid one does not affect the others. `laws` proves, for
//! any sequence of requests, that whatever was answered with 200 was done. A client that follows
//! `next` with all versions receives every row, whatever others request in between.
//!
//! ```text
//! let mut state = State { library, statuses: Statuses::new(alloc)? };
//! let answer = respond(&config, &mut state, &mut keeper, now_micros, &request)?;
//! ```
#![tactic(auto)]

mod adding;
mod deleting;
pub mod history_laws;
mod listing;
mod operation;
mod outcome;
mod outcomes;
mod perform;
mod post_body;
mod posted;
mod prepared;
mod reading;
mod resource;
mod response;
mod state;
pub mod step_laws;

pub use adding::add_objects;
pub use deleting::delete_object;
pub use post_body::read_posted;
pub use posted::{MAX_DETAILS, Posted};
pub use resource::Resource;
pub use response::respond;
pub use state::State;
