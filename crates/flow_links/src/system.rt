mod connection_time;
mod deadline;
mod deadline_stream;
mod phase;
mod system_clock;
mod tcp_dial;
mod tcp_door;
mod tcp_link;
mod timed_stream;

pub use connection_time::ConnectionTime;
pub use deadline::Deadline;
pub use deadline_stream::DeadlineStream;
pub use phase::Phase;
pub use system_clock::SystemClock;
pub use tcp_dial::TcpDial;
pub use tcp_door::TcpDoor;
pub use tcp_link::TcpLink;
pub use timed_stream::TimedStream;

/// How many seconds a read and a write of a dialled link may wait for the peer.
const CALL_TIMEOUT: u64 = 30;
