ghost use Rattle.std.specs.Prelude.{◌≡◌, ◌≤◌, None, length, IfOk, OnErr, IsErr};
ghost use Rattle.flow_edges.specs.Faults.{Counted};
ghost use Rattle.flow_links.specs.declared.dial.TheConstants.{MAX_HOST};
ghost use Rattle.flow_links.specs.Dials.{DialStays, Connects, FinishesDialedLink};
ghost use Rattle.flow_links.specs.System.{StreamState};

use super::Deadline;
use crate::{DeadlineStream, Dial, TcpLink};
use flow_edges::counted_fault;
use flow_values::Fault;
use std::io;
use std::io::ErrorKind;
use std::marker::Model;
use std::net::{HostAddrs, Net, OpenStream, TcpStream, ToSocketAddrs};
use std::time::{Clock as Timer, Duration};

/// Seconds to connect to a peer.
const DIAL_TIME: u64 = 30;

/// Seconds from the call of `dial` until the link's reads and writes fail.
const LINK_TIME: u64 = 600;

/// Opens TCP connections, by host name or address. Links are not observable; the value in contracts
/// is the count of faults. `TCP_NODELAY` is set. Each read and write times out after 30 seconds,
/// and all of them fail from 10 minutes after the call of `dial`.
///
/// `dial` tries each address of the name in turn, 32 at most. Each gets an equal share of what is
/// left of 30 seconds. Name resolution has no timeout of its system call, but its time counts
/// against the 30 seconds and the 10 minutes.
#[derive(Drop)]
pub struct TcpDial<'r, R: Net + Timer> {
    rt: &'r R,
    faults: u64,
}

impl<'r, R: Net + Timer> Model for TcpDial<'r, R> {
    ghost use Rattle.std.specs.Prelude.{ℕ};

    ghost Value = { ℕ };

    ghost view = { λ dial. dial.faults };
}

impl<'r, R: Net + Timer> TcpDial<'r, R> {
    /// A dial with no faults yet.
    pub fn new(rt: &'r R) -> TcpDial<'r, R>
        ensures { result ≡ 0 }
    {
        TcpDial { rt, faults: 0 }
    }

    /// Connects a stream to this host and port, and sets its timeouts.
    fn connect(&self, host: &str, port: u16) -> io::Result<DeadlineStream<'r, R::Stream, R>> {
        let connect_deadline = Deadline::after(self.rt, Duration::from_secs(DIAL_TIME))?;
        let deadline = Deadline::after(self.rt, Duration::from_secs(LINK_TIME))?;
        let addresses = (host, port).to_socket_addrs(self.rt)?;
        let stream = self.first_to_connect(addresses, &connect_deadline)?;
        stream.set_nodelay(true)?;
        Ok(DeadlineStream::new(stream, deadline))
    }

    /// The stream to the first address that accepts within its share of the time.
    fn first_to_connect(
        &self,
        addresses: HostAddrs,
        deadline: &Deadline<'r, R>,
    ) -> io::Result<R::Stream> {
        let mut untried = u32::try_from(addresses.len()).unwrap_or(u32::MAX);
        for address in addresses {
            let share = deadline.left()? / untried.max(1);
            if let Ok(stream) = TcpStream::connect_timeout(self.rt, &address, share) {
                return Ok(stream);
            }
            untried = untried.saturating_sub(1);
        }
        Err(io::Error::from(ErrorKind::NotConnected))
    }
}

impl<'r, R: Net + Timer> Dial for TcpDial<'r, R> {
    type Link = TcpLink<DeadlineStream<'r, R::Stream, R>>;

    ghost observable = { λ _. None };

    ghost faults = { λ dial. dial };

    fn dial(
        &mut self,
        host: &str,
        port: u16,
    ) -> Result<TcpLink<DeadlineStream<'r, R::Stream, R>>, Fault>
        requires short { length host.now ≤ MAX_HOST }
        ensures ok { IfOk result (λ link. Connects {L = StreamState} link host.now port None None) }
        ensures err { OnErr result (DialStays {L = StreamState} None None) }
        ensures causes { Counted (IsErr result) self.old self.new }

        ensures fresh { IfOk result (λ link. (link.read_faults ≡ 0) × (link.write_faults ≡ 0)) }
    {
        match self.connect(host, port) {
            Ok(stream) => Ok(TcpLink::new(stream)),
            Err(_) => Err(counted_fault(&mut self.faults)),
        }
    }

    /// Closes the link.
    fn finish(&mut self, link: TcpLink<DeadlineStream<'r, R::Stream, R>>)
        ensures back { FinishesDialedLink {L = StreamState} link.entry None None }
        ensures quiet { self.new ≡ self.old }
    {
        drop(link);
    }
}
