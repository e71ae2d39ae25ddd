//! The common parts of the client programs: the arguments `HOST PORT ROOT COLLECTION`, which name a
//! collection of a peer, and the message for a refused response.
//!
//! ```text
//! let peer = PeerArguments::read("example.org", "80", "/api/", uuid)?; // None if malformed
//! let target = peer.target(alloc, 100, None)?;
//! ```
#![tactic(auto)]

mod arguments;
mod forms;
mod refusal;

pub use arguments::{PeerArguments, number_to};
pub use forms::MAX_ROOT;
pub use refusal::write_refusal;
