ghost use Rattle.std.specs.Prelude.{◌≡◌, ◌≢◌, IsErr};
ghost use Rattle.flow_edges.specs.Faults.{Counted};
ghost use Rattle.taxii_server.specs.inner.Answering.{WritesClosingAnswer};

use crate::receive_end::ReceiveEnd;
use flow_links::Link;
use flow_values::{Fault, NoMemory};
use http_messages::Refusal;
use std::alloc::Global;
use taxii_exchange::{refusal_answer, write_answer, write_no_memory};

/// Sends the last response before a connection ends early, if any. A failed read is passed on as
/// `Fault`.
pub(crate) fn write_closing_answer<L: Link>(
    alloc: Global,
    receive_end: ReceiveEnd,
    link: &mut L,
) -> Result<(), Fault>
    ensures leave { WritesClosingAnswer receive_end (L.written link.old)
        (L.written link.new) result }
    ensures causes { receive_end ≢ ReceiveEnd.Failed
        → Counted (IsErr result) (L.Sink.faults link.old) (L.Sink.faults link.new) }
    ensures failed { receive_end ≡ ReceiveEnd.Failed
        → IsErr result × (L.Sink.faults link.new ≡ L.Sink.faults link.old) }
    ensures unread { L.Sink.other link.new ≡ L.Sink.other link.old }
{
    match receive_end {
        ReceiveEnd::AtEnd => Ok(()),
        ReceiveEnd::Refused(refusal) => refuse(alloc, refusal, link),
        ReceiveEnd::NoMemory => write_no_memory(link),
        ReceiveEnd::Failed => Err(Fault),
    }
}

/// Sends the error response to a refusal, or the 503 when out of memory.
fn refuse<L: Link>(alloc: Global, refusal: Refusal, link: &mut L) -> Result<(), Fault>
    ensures leave { WritesClosingAnswer (ReceiveEnd.Refused refusal) (L.written link.old)
        (L.written link.new) result }
    ensures causes { Counted (IsErr result) (L.Sink.faults link.old) (L.Sink.faults link.new) }
    ensures unread { L.Sink.other link.new ≡ L.Sink.other link.old }
{
    match refusal_answer(alloc, refusal) {
        Ok(answer) => write_answer(&answer, true, link),
        Err(NoMemory) => write_no_memory(link),
    }
}
