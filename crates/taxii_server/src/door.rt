ghost use Rattle.std.specs.Prelude.{◌≡◌, ◌≤◌, ◌<◌, ◌⊎◌, ◌^◌, [], List, length, IfOk, IfSome, IsErr};
ghost use Rattle.flow_edges.specs.Faults.{Counted};
ghost use Rattle.flow_links.specs.Doors.{DoorStays};
ghost use Rattle.taxii_store.specs.Agreement.{Agrees, without_rows};
ghost use Rattle.taxii_server.specs.Connections.{Pass};
ghost use Rattle.taxii_server.specs.Environment.{client_view};
ghost use Rattle.taxii_server.specs.declared.connection.TheConstants.{MAX_REQUESTS};
ghost use Rattle.taxii_server.specs.inner.Serving.{ServesClient};
ghost use Rattle.taxii_server.specs.Serving.{Client, exchanges_of, HaveConnections};
ghost use Rattle.taxii_server.specs.Serving.{PassThroughDoor};
ghost use Rattle.taxii_server.specs.Serving.{IsWholeOf};

use crate::{Served, Server, serve_link};
use flow_links::{Clock, Door};
use flow_values::Fault;
use taxii_rows::Keeper;

/// Listens at a port and serves up to `connections` clients, one after the other. A failing link
/// ends only its own connection. Each link is returned to the door, in order. `Fault` means that
/// the door failed; the clients before that were served.
pub fn serve_door<K: Keeper, D: Door, C: Clock>(
    server: &mut Server,
    keeper: &mut K,
    clock: &mut C,
    door: &mut D,
    port: u16,
    connections: u64,
) -> Result<Served, Fault>
    // the keeper's observable rows must be the library's, and stay so
    requires agrees { Agrees (K.kept keeper.old) server.old.state.library }
    requires few { connections < 2 ^ 32 }
    ensures agrees { Agrees (K.kept keeper.new) server.new.state.library }
    ensures keeper { without_rows (K.kept keeper.new) ≡ without_rows (K.kept keeper.old) }
    ensures config { server.new.config ≡ server.old.config }
    // what the door, the clock and the keeper were asked, and each connection's exchanges
    ensures serves { (clients : List (Client D.Link))
        × HaveConnections (client_view D.Link.left D.Link.began D.Link.written D.Link.Source.faults
        D.Link.Sink.faults)
        server.old.config server.old.state clients server.new.state
        × Pass (exchanges_of clients)
        (record { moments = C.moments clock.old; faults = K.faults keeper.old })
        (record { moments = C.moments clock.new; faults = K.faults keeper.new })
        × (length clients ≤ connections)
        × (PassThroughDoor port clients (D.observable door.old) (D.observable door.new)
        ⊎ (IsErr result × (clients ≡ [])
        × DoorStays (D.observable door.old) (D.observable door.new)))
        × IfOk result (IsWholeOf connections clients (D.observable door.new)) }
    // the door counts a fault exactly if the call fails; faults of links are not its own
    ensures causes { Counted (IsErr result) (D.faults door.old) (D.faults door.new) }
{
    door.listen(port)?;
    let mut served = Served {
        connections: 0,
        requests: 0,
    };
    while served.connections < connections {
        let Some(link) = door.next()? else {
            return Ok(served);
        };
        served.requests += serve_client(server, keeper, clock, door, link);
        served.connections += 1;
    }
    Ok(served)
}

/// Serves one client and returns its link to the door. Returns the number of its requests.
fn serve_client<K: Keeper, D: Door, C: Clock>(
    server: &mut Server,
    keeper: &mut K,
    clock: &mut C,
    door: &mut D,
    link: D::Link,
) -> u64
    requires agrees { Agrees (K.kept keeper.old) server.old.state.library }
    requires given { IfSome (D.observable door.old) (λ state. 1 ≤ state.given) }
    ensures agrees { Agrees (K.kept keeper.new) server.new.state.library }
    ensures keeper { without_rows (K.kept keeper.new) ≡ without_rows (K.kept keeper.old) }
    ensures config { server.new.config ≡ server.old.config }
    ensures serves { ServesClient
        (client_view D.Link.left D.Link.began D.Link.written D.Link.Source.faults
        D.Link.Sink.faults)
        server.old.config server.old.state link
        (record { moments = C.moments clock.old; faults = K.faults keeper.old })
        (record { moments = C.moments clock.new; faults = K.faults keeper.new })
        (D.observable door.old) (D.observable door.new) result server.new.state }
    ensures few { result ≤ MAX_REQUESTS }
    ensures quiet { D.faults door.new ≡ D.faults door.old }
{
    let mut link = link;
    let end = serve_link(server, keeper, clock, &mut link);
    door.finish(link);
    end.requests()
}
