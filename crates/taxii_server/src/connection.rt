ghost use Rattle.std.specs.Prelude.{◌≡◌, ◌≤◌, List};
ghost use Rattle.taxii_store.specs.Agreement.{Agrees, without_rows};
ghost use Rattle.taxii_service.specs.Exchanges.{Exchange};
ghost use Rattle.taxii_server.specs.Connections.{Connection, Pass, requests_of};
ghost use Rattle.taxii_server.specs.Environment.{client_view};

use crate::answering::answer;
use crate::closing_answer::write_closing_answer;
use crate::receive_end::ReceiveEnd;
use crate::receiver::Receiver;
use crate::{LinkEnd, Server};
use flow_links::{Clock, Link};
use flow_values::{Fault, NoMemory};
use http_messages::request_laws::later_bytes_change_nothing;
use taxii_rows::Keeper;

/// The maximum size of a request body in bytes.
pub const MAX_BODY: u64 = 8_388_608;

/// The maximum number of requests of one connection.
pub const MAX_REQUESTS: u64 = 1024;

/// Serves one connection: answers its requests in order, each before more is read. The connection
/// ends after a response with `Connection: close`, at the end of the client's bytes, or when the
/// link fails. An incomplete last request gets no response.
pub fn serve_link<K: Keeper, L: Link, C: Clock>(
    server: &mut Server,
    keeper: &mut K,
    clock: &mut C,
    link: &mut L,
) -> LinkEnd
    // the keeper's observable rows must be the library's, and stay so
    requires agrees { Agrees (K.kept keeper.old) server.old.state.library }
    ensures agrees { Agrees (K.kept keeper.new) server.new.state.library }
    ensures keeper { without_rows (K.kept keeper.new) ≡ without_rows (K.kept keeper.old) }
    ensures config { server.new.config ≡ server.old.config }
    // there is a list of exchanges: the bytes read are its requests, the bytes written its
    // responses, and clock and keeper were used as it says
    ensures serves { (exchanges : List Exchange) × Connection server.old.config server.old.state
        (client_view L.left L.began L.written L.Source.faults L.Sink.faults link.old)
        (client_view L.left L.began L.written L.Source.faults L.Sink.faults link.new)
        exchanges result server.new.state
        × Pass exchanges (record { moments = C.moments clock.old; faults = K.faults keeper.old })
        (record { moments = C.moments clock.new; faults = K.faults keeper.new }) }
    ensures few { requests_of result ≤ MAX_REQUESTS }
{
    later_bytes_change_nothing();
    let alloc = server.config.alloc;
    let mut receiver = match Receiver::new(alloc) {
        Ok(receiver) => receiver,
        Err(NoMemory) => return LinkEnd::after(
            write_closing_answer(alloc, ReceiveEnd::NoMemory, link),
            0,
        ),
    };
    let mut requests = 0;
    loop {
        let request = match receiver.receive(link) {
            Ok(request) => request,
            Err(receive_end) => return LinkEnd::after(
                write_closing_answer(alloc, receive_end, link),
                requests,
            ),
        };
        requests += 1;
        let is_last = requests == MAX_REQUESTS;
        match answer(server, keeper, clock, &request, is_last, link) {
            Ok(true) => return LinkEnd::Closed { requests },
            Ok(false) => {}
            Err(Fault) => return LinkEnd::LinkFault { requests },
        }
    }
}
