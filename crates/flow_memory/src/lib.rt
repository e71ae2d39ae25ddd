//! Test doubles in memory for the traits of `flow_edges` and `flow_links`: sources, sinks, links, a
//! door, a dial and a clock. All of their state is observable, and chosen calls can be made to
//! fail. Programs proved over the traits are tested over these.
//!
//! ```ignore
//! let link = MemoryLink::new(alloc, request, 7, no_reads_fail, 65_536, no_writes_fail)?;
//! let mut links = Items::new(alloc);
//! links.push(link)?;
//! let mut door = MemoryDoor::new(alloc, links, Items::new(alloc))?;
//! serve(&mut door)?;
//! let response = door.finished()[0].bytes();
//! ```
#![tactic(auto)]

mod endpoint;
mod list_clock;
mod memory_dial;
mod memory_door;
mod memory_link;
mod memory_sink;
mod memory_source;
mod quiet_sink;
mod quiet_source;

pub use endpoint::Endpoint;
pub use list_clock::ListClock;
pub use memory_dial::MemoryDial;
pub use memory_door::MemoryDoor;
pub use memory_link::MemoryLink;
pub use memory_sink::MemorySink;
pub use memory_source::MemorySource;
pub use quiet_sink::QuietSink;
pub use quiet_source::QuietSource;
