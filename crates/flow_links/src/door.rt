ghost use Rattle.std.specs.Prelude.{ℕ, Option, OnErr, IfOk, IfSome, ◌≡◌, ◌≤◌, IsErr};
ghost use Rattle.flow_edges.specs.Faults.{Counted};
ghost use Rattle.flow_links.specs.Doors.{DoorState, DoorStays, Listens, GivesNext, Finishes};

use crate::Link;
use flow_values::Fault;

/// Accepts connections from clients: over TCP (`TcpDoor`) or in memory, for tests.
pub trait Door {
    /// A client's connection.
    type Link: Link;

    /// The connections to come and those finished, if they are observable.
    ghost observable: { Self → Option (DoorState Self.Link) };

    /// How many calls failed.
    ghost faults: { Self → ℕ };

    /// Listens at this port from now on. A `Fault` is counted, and nothing has changed.
    fn listen(&mut self, port: u16) -> Result<(), Fault>
        ensures ok { IfOk result (λ _. Listens port (observable self.old) (observable self.new)) }
        ensures err { OnErr result (DoorStays (observable self.old) (observable self.new)) }
        ensures causes { Counted (IsErr result) (faults self.old) (faults self.new) };

    /// Accepts the next connection, and may block for it. `None` if no client is left. A `Fault` is
    /// counted, and no connection was accepted.
    fn next(&mut self) -> Result<Option<Self::Link>, Fault>
        ensures ok { IfOk result
            (λ link. GivesNext link (observable self.old) (observable self.new)) }
        ensures err { OnErr result (DoorStays (observable self.old) (observable self.new)) }
        ensures causes { Counted (IsErr result) (faults self.old) (faults self.new) };

    /// Closes a connection that `next` returned.
    fn finish(&mut self, link: Self::Link)
        // At least one connection is open, so the count of open ones can't underflow.
        requires given { IfSome (observable self.now) (λ state. 1 ≤ state.given) }
        ensures back { Finishes link (observable self.old) (observable self.new) }
        ensures quiet { faults self.new ≡ faults self.old };
}
