ghost use Rattle.std.specs.Prelude.{◌≡◌};
ghost use Rattle.flow_edges.specs.Faults.{Counted};
ghost use Rattle.taxii_rows.specs.declared.fault_cause.FaultCause.{FaultCause as Cause};
ghost use Rattle.taxii_server.specs.Environment.{client_view};
ghost use Rattle.command_line.specs.Request.{plain_service};
ghost use Rattle.command_run.specs.ServeEndings.{EndsServe, IsEarly, IsStoreFault};
ghost use Rattle.command_run.specs.ServeEndings.{ConcludesServing};

use crate::opening::open;
use crate::serve_ending::ServeEnding;
use crate::summary::write_summary;
use command_line::ServeRequest;
use flow_edges::Sink;
use flow_links::{Clock, Door};
use std::alloc::Global;
use taxii_rows::Keeper;
use taxii_server::laws::clients_make_history;
use taxii_server::{Served, serve_door};
use taxii_service::history_laws::walks_among_requests_skip_no_row;

/// Loads the keeper's rows, serves the clients of the door one after the other, and finally writes
/// how many connections and requests there were.
pub fn serve<O: Sink, D: Door, K: Keeper, C: Clock>(
    alloc: Global,
    request: &ServeRequest<'_>,
    output: &mut O,
    door: &mut D,
    keeper: &mut K,
    clock: &mut C,
) -> ServeEnding
    ensures ends { EndsServe
        (client_view D.Link.left D.Link.began D.Link.written D.Link.Source.faults
        D.Link.Sink.faults)
        (plain_service request.now)
        (record {
          door = D.observable door.old;
          kept = K.kept keeper.old;
          written = O.written output.old;
          around = record { moments = C.moments clock.old; faults = K.faults keeper.old };
        })
        (record {
          door = D.observable door.new;
          kept = K.kept keeper.new;
          written = O.written output.new;
          around = record { moments = C.moments clock.new; faults = K.faults keeper.new };
        })
        result }
    ensures early { IsEarly result
        → (door.new ≡ door.old) × (clock.new ≡ clock.old) × (output.new ≡ output.old) }
    ensures door { Counted (result ≡ ServeEnding.DoorFault) (D.faults door.old)
        (D.faults door.new) }
    ensures keeper { IsEarly result
        → Counted (IsStoreFault result) (K.faults keeper.old) (K.faults keeper.new) }
    ensures cause { (cause : Cause) → result ≡ ServeEnding.StoreFault cause
        → cause ≡ K.last_cause keeper.new }
    ensures output { Counted (result ≡ ServeEnding.WriteFault) (O.faults output.old)
        (O.faults output.new) }
{
    walks_among_requests_skip_no_row();
    clients_make_history::<D>();
    let mut server = match open(alloc, request, keeper) {
        Ok(server) => server,
        Err(refusal) => return ServeEnding::of_refusal(refusal, keeper.cause()),
    };
    let connections = u64::from(request.connections);
    match serve_door(&mut server, keeper, clock, door, request.port, connections) {
        Ok(served) => conclude(served, output),
        Err(_) => ServeEnding::DoorFault,
    }
}

/// Writes the summary.
fn conclude<O: Sink>(served: Served, output: &mut O) -> ServeEnding
    ensures concludes { ConcludesServing served (O.written output.old)
        (O.written output.new) result }
    ensures output { Counted (result ≡ ServeEnding.WriteFault) (O.faults output.old)
        (O.faults output.new) }
{
    match write_summary(served, output) {
        Ok(()) => ServeEnding::Done(served),
        Err(_) => ServeEnding::WriteFault,
    }
}
