//! HTTP/1.1 messages (RFC 9112), with the statuses and field rules of RFC 9110. A server gets an
//! incremental parser for the requests of a connection, a client a reader for the one response that
//! it waits for.
//!
//! Both sides are defined on byte strings alone (`specs/Frames.antt`, `specs/Replies.antt`). So the
//! result does not depend on how the transport splits the bytes. Whatever an intermediary could
//! parse differently is refused, which rules out request smuggling: lengths that differ, a transfer
//! coding, a missing or repeated Host.
//!
//! A client accepts only a response with status 200, one Content-Length and no transfer coding, and
//! reads no byte after it.
//!
//! ```text
//! let mut session = Session::new(alloc, 8_388_608)?; // bodies of at most 8 MiB
//! session.feed(&bytes[..count])?;
//! while let Frame::Request(request) = session.next_request()? {
//!     // answer `request`; close the connection afterwards if `request.close`
//! }
//! ```
#![tactic(auto)]

mod ascii;
mod buffer;
mod close;
mod finding;
mod frame;
mod length;
mod method;
mod reply;
mod reply_body;
mod reply_checking;
mod reply_end;
mod reply_grammar;
mod reply_head;
pub mod reply_laws;
mod reply_refusal;
mod request;
mod request_body;
mod request_checking;
mod request_grammar;
mod request_head;
pub mod request_laws;
mod request_refusal;
mod search;
mod searching;
mod session;
mod status;
mod texts;

pub use ascii::same_name;
pub use frame::{Frame, MAX_HEAD};
pub use length::{all_state, first_length};
pub use method::Method;
pub use reply::read_reply;
pub use reply_end::ReplyEnd;
pub use reply_refusal::{HeadRefusal, MAX_REPLY};
pub use request::Request;
pub use request_body::Body;
pub use request_refusal::Refusal;
pub use search::last_line_end;
pub use session::Session;
pub use status::Status;
