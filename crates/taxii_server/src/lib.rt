//! A TAXII 2.1 server that accepts connections one after the other. The requests of a connection
//! are answered in order (RFC 9112, sections 9.3 and 9.6), until one asks to close, the client
//! sends no more, or its bytes are refused.
//!
//! A failing link ends its own connection and no other. When memory runs out, the server sends a
//! 503 that needs no memory, closes the connection, and has changed nothing.
//!
//! ```text
//! let mut server = Server { config, state };
//! let served = serve_door(&mut server, &mut keeper, &mut clock, &mut door, 8080, 1_000)?;
//! // served.connections, served.requests
//! ```
#![tactic(auto)]

mod answering;
mod closing_answer;
mod connection;
mod door;
pub mod laws;
mod link_end;
mod receive_end;
mod receiver;
mod served;
mod server;

pub use connection::{MAX_BODY, MAX_REQUESTS, serve_link};
pub use door::serve_door;
pub use link_end::LinkEnd;
pub use served::Served;
pub use server::Server;
