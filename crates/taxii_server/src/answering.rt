ghost use Rattle.std.specs.Prelude.{◌≡◌, IsErr};
ghost use Rattle.flow_edges.specs.Faults.{Counted};
ghost use Rattle.taxii_store.specs.Agreement.{Agrees, without_rows};
ghost use Rattle.taxii_server.specs.inner.Answering.{Answers};

use crate::Server;
use flow_links::{Clock, Link};
use flow_values::{Fault, NoMemory};
use http_messages::Request;
use taxii_exchange::{write_answer, write_no_memory};
use taxii_rows::Keeper;
use taxii_service::respond;
use taxii_service::step_laws::no_step_reports_a_store_fault;

/// Responds to a request at the clock's next moment, and returns whether the connection ends. When
/// out of memory, it sends the 503 response and ends the connection.
pub(crate) fn answer<K: Keeper, L: Link, C: Clock>(
    server: &mut Server,
    keeper: &mut K,
    clock: &mut C,
    request: &Request,
    is_last: bool,
    link: &mut L,
) -> Result<bool, Fault>
    requires agrees { Agrees (K.kept keeper.old) server.old.state.library }
    ensures agrees { Agrees (K.kept keeper.new) server.new.state.library }
    ensures keeper { without_rows (K.kept keeper.new) ≡ without_rows (K.kept keeper.old) }
    ensures config { server.new.config ≡ server.old.config }
    ensures answers { Answers server.old.config server.old.state request.now is_last
        (record { moments = C.moments clock.old; faults = K.faults keeper.old })
        (record { moments = C.moments clock.new; faults = K.faults keeper.new })
        (L.written link.old) (L.written link.new) result server.new.state }
    ensures causes { Counted (IsErr result) (L.Sink.faults link.old) (L.Sink.faults link.new) }
    ensures unread { L.Sink.other link.new ≡ L.Sink.other link.old }
{
    no_step_reports_a_store_fault();
    let moment = clock.now();
    let answer = respond(&server.config, &mut server.state, keeper, moment, request);
    match answer {
        Ok(answer) => {
            let close = request.close || is_last;
            write_answer(&answer, close, link)?;
            Ok(close)
        }
        Err(NoMemory) => {
            write_no_memory(link)?;
            Ok(true)
        }
    }
}
