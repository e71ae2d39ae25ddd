//! The network boundary: `Door` accepts connections from clients (a listener), `Dial` opens
//! connections to peers, and `Clock` gives the time. A `Link` is a connection: it is a `Source` and
//! a `Sink` at once, so code that reads and writes bytes works over links too.
//!
//! Each trait has ghost members for its observable state and counts its faults. `TcpDoor`,
//! `TcpDial` and `SystemClock` implement the traits for the operating system, where nothing but the
//! faults is observable. They set timeouts: see `Phase` and `ConnectionTime` for those of a client,
//! and `Deadline` for those of a peer.
//!
//! ```ignore
//! let mut door = TcpDoor::new(rt);
//! door.listen(8080)?;
//! while let Some(mut link) = door.next()? {
//!     let count = link.read(&mut buffer)?;
//!     door.finish(link);
//! }
//! ```
#![tactic(auto)]

mod clock;
mod dial;
mod door;
mod link;
mod system;

pub use clock::Clock;
pub use dial::{Dial, MAX_HOST};
pub use door::Door;
pub use link::Link;
pub use system::{
    ConnectionTime, Deadline, DeadlineStream, Phase, SystemClock, TcpDial, TcpDoor, TcpLink,
    TimedStream,
};
