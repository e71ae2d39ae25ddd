ghost use Rattle.std.specs.Prelude.{◌≡◌, ◌<◌, ◌≤◌, Some, None, IfOk, OnErr, IsSome, IsErr};
ghost use Rattle.flow_edges.specs.Faults.{Counted};
ghost use Rattle.flow_links.specs.Doors.{DoorStays, Listens, GivesNext, Finishes};
ghost use Rattle.flow_links.specs.declared.system.tcp_door.TheConstants.{MAX_LOST};
ghost use Rattle.flow_links.specs.System.{StreamState, LosesCallers, loopback, address_of};

use super::TimedStream;
use crate::{Door, TcpLink};
use flow_edges::counted_fault;
use flow_values::Fault;
use std::io::ErrorKind;
use std::marker::Model;
use std::net::{Ipv4Addr, Net, OpenListener, OpenStream, SocketAddr, SocketAddrV4, TcpListener};
use std::time::{Clock as Timer, Duration};
use std::{io, thread};

/// The number of failed accepts in a row that is a `Fault`.
const MAX_LOST: u64 = 100;

/// Milliseconds to wait after a failed accept.
const LOST_PAUSE: u64 = 100;

/// A listening socket and its local address.
#[derive(Drop)]
struct Port<L: OpenListener> {
    listener: L,
    address: SocketAddrV4,
}

/// A TCP listener on the loopback interface. Links are not observable; the value in contracts is
/// the address, and the counts of lost clients and of faults. `TCP_NODELAY` is set, and each
/// connection has the timeouts of `Phase` within those of `ConnectionTime`.
///
/// A client is lost if accepting it fails, for example if it has gone or file descriptors run out.
/// The loss is counted, and the next accept follows a tenth of a second later. A hundred losses in
/// a row are a `Fault`.
#[derive(Drop)]
pub struct TcpDoor<'r, R: Net + Timer> {
    rt: &'r R,
    port: Option<Port<R::Listener>>,
    lost: u64,
    faults: u64,
}

impl<'r, R: Net + Timer> Model for TcpDoor<'r, R> {
    ghost use Rattle.std.specs.Prelude.{option_map};
    ghost use Rattle.flow_links.specs.System.{PortState, address_of};

    ghost Value = { PortState };

    ghost view = { λ door. record {
      address = option_map (λ port. address_of port.address) door.port;
      lost = door.lost;
      faults = door.faults;
    } };
}

impl<'r, R: Net + Timer> TcpDoor<'r, R> {
    /// A door that doesn't listen yet, with no losses and no faults.
    pub fn new(rt: &'r R) -> TcpDoor<'r, R>
        ensures { result ≡ record { address = None; lost = 0; faults = 0 } }
    {
        TcpDoor {
            rt,
            port: None,
            lost: 0,
            faults: 0,
        }
    }

    /// Binds and listens at this port of the loopback interface.
    fn open(&self, port: u16) -> io::Result<Port<R::Listener>>
        ensures { IfOk result (λ opened. address_of opened.address ≡ loopback port) }
    {
        let wanted = SocketAddrV4::new(Ipv4Addr::LOCALHOST, port);
        let listener = TcpListener::bind(self.rt, SocketAddr::V4(wanted))?;
        match listener.local_addr()? {
            SocketAddr::V4(address) if address == wanted => Ok(Port { listener, address }),
            _ => Err(io::Error::from(ErrorKind::AddrNotAvailable)),
        }
    }
}

/// Accepts the next client.
fn accept<'r, R: Net + Timer>(
    rt: &'r R,
    listener: &R::Listener,
) -> io::Result<TimedStream<'r, R::Stream, R>> {
    let (stream, _) = listener.accept()?;
    stream.set_nodelay(true)?;
    Ok(TimedStream::new(stream, rt))
}

/// Accepts the next client and returns the number of failed accepts before it. A `Fault` after
/// `MAX_LOST` failed ones.
fn accept_client<'r, R: Net + Timer>(
    rt: &'r R,
    listener: &R::Listener,
) -> Result<(u64, TimedStream<'r, R::Stream, R>), Fault>
    ensures { IfOk result (λ taken. taken.0 < MAX_LOST) }
{
    for lost in 0..MAX_LOST {
        if let Ok(stream) = accept(rt, listener) {
            return Ok((lost, stream));
        }
        thread::sleep(rt, Duration::from_millis(LOST_PAUSE));
    }
    Err(Fault)
}

impl<'r, R: Net + Timer> Door for TcpDoor<'r, R> {
    type Link = TcpLink<TimedStream<'r, R::Stream, R>>;

    ghost observable = { λ _. None };

    ghost faults = { λ door. door.faults };

    /// Listens on the loopback address alone. Port 0 is none, and a `Fault`.
    fn listen(&mut self, port: u16) -> Result<(), Fault>
        ensures ok { IfOk result (λ _. Listens {L = StreamState} port None None) }
        ensures err { OnErr result (DoorStays {L = StreamState} None None) }
        ensures causes { Counted (IsErr result) self.old.faults self.new.faults }

        ensures address { IfOk result (λ _. self.new.address ≡ Some (loopback port)) }
        ensures stays { OnErr result (self.new.address ≡ self.old.address) }
        ensures lost { self.new.lost ≡ self.old.lost }
    {
        match self.open(port) {
            Ok(opened) => {
                self.port = Some(opened);
                Ok(())
            }
            Err(_) => Err(counted_fault(&mut self.faults)),
        }
    }

    /// `None` only where `listen` wasn't called: a port never runs out of callers.
    fn next(&mut self) -> Result<Option<TcpLink<TimedStream<'r, R::Stream, R>>>, Fault>
        ensures ok { IfOk result (λ link. GivesNext {L = StreamState} link None None) }
        ensures err { OnErr result (DoorStays {L = StreamState} None None) }
        ensures causes { Counted (IsErr result) self.old.faults self.new.faults }

        // A listening port never runs out of clients.
        ensures some { IfOk result (λ link. IsSome self.old.address → IsSome link) }
        ensures address { self.new.address ≡ self.old.address }
        ensures lost { LosesCallers result self.old.lost self.new.lost }
    {
        let Some(port) = &self.port else {
            return Ok(None);
        };
        match accept_client(self.rt, &port.listener) {
            Ok((lost, stream)) => {
                self.lost = self.lost.saturating_add(lost);
                Ok(Some(TcpLink::new(stream)))
            }
            Err(Fault) => {
                self.lost = self.lost.saturating_add(MAX_LOST);
                Err(counted_fault(&mut self.faults))
            }
        }
    }

    /// Closes the link. If no call on it failed, it first shuts down writing. If input is pending, it
    /// then drops input for at most 2 seconds and 16,777,216 bytes. So a response that the client
    /// hasn't read yet still reaches it.
    fn finish(&mut self, link: TcpLink<TimedStream<'r, R::Stream, R>>)
        ensures back { Finishes {L = StreamState} link.entry None None }
        ensures quiet { self.new ≡ self.old }
    {
        if let Some(stream) = link.into_faultless() {
            let _ = stream.close();
        }
    }
}
