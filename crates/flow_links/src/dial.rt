ghost use Rattle.std.specs.Prelude.{ℕ, Option, OnErr, IfOk, IfSome, length, ◌≡◌, ◌≤◌, IsErr};
ghost use Rattle.flow_edges.specs.Faults.{Counted};
ghost use Rattle.flow_links.specs.declared.dial.TheConstants.{MAX_HOST};
ghost use Rattle.flow_links.specs.Dials.{DialState, DialStays, Connects, FinishesDialedLink};

use crate::Link;
use flow_values::Fault;

/// The greatest length of a host name, in bytes (RFC 1035, section 2.3.4).
pub const MAX_HOST: usize = 253;

/// Opens connections to peers: over TCP (`TcpDial`) or in memory, for tests.
pub trait Dial {
    /// A connection to a peer.
    type Link: Link;

    /// The connections to come, those finished, and the endpoint of each one opened, if they are
    /// observable.
    ghost observable: { Self → Option (DialState Self.Link) };

    /// How many calls failed.
    ghost faults: { Self → ℕ };

    /// Connects to a host (a name or an address) and a port. A `Fault` is counted, and no
    /// connection was opened.
    fn dial(&mut self, host: &str, port: u16) -> Result<Self::Link, Fault>
        requires short { length host.now ≤ MAX_HOST }
        ensures ok { IfOk result
            (λ link. Connects link host.now port (observable self.old) (observable self.new)) }
        ensures err { OnErr result (DialStays (observable self.old) (observable self.new)) }
        ensures causes { Counted (IsErr result) (faults self.old) (faults self.new) };

    /// Closes a connection that `dial` opened.
    fn finish(&mut self, link: Self::Link)
        // At least one connection is open, so the count of open ones can't underflow.
        requires given { IfSome (observable self.now) (λ state. 1 ≤ state.given) }
        ensures back { FinishesDialedLink link (observable self.old) (observable self.new) }
        ensures quiet { faults self.new ≡ faults self.old };
}
