ghost use Rattle.std.specs.Prelude.{◌≡◌, ◌≢◌, ◌⊎◌, [], Some, Err, IfOk, IfSome};
ghost use Rattle.taxii_server.specs.inner.Receiving.{Receives, TakesMore, WantedMore};

use crate::connection::MAX_BODY;
use crate::receive_end::ReceiveEnd;
use flow_edges::MAX_READ;
use flow_links::Link;
use flow_values::NoMemory;
use http_messages::request_laws::few_bytes_need_more;
use http_messages::{Frame, Request, Session};
use std::alloc::Global;
use std::marker::Model;

/// Receives the requests of a link. Its model is the list of bytes read and not yet returned as a
/// request.
#[derive(Drop)]
pub(crate) struct Receiver {
    session: Session,
    buffer: Vec<u8>,
}

impl Model for Receiver {
    ghost use Rattle.std.specs.Prelude.{◌≡◌, ℕ, List, vec_len};
    ghost use Rattle.flow_edges.specs.declared.source.TheConstants.{MAX_READ};
    ghost use Rattle.taxii_server.specs.declared.connection.TheConstants.{MAX_BODY};

    ghost Value = { List ℕ };

    ghost view = { λ receiver. receiver.session.fed };

    ghost invariant = { λ receiver. (receiver.session.max_body ≡ MAX_BODY)
        × (vec_len receiver.buffer ≡ MAX_READ) };
}

impl Receiver {
    /// A receiver that has read nothing.
    pub(crate) fn new(alloc: Global) -> Result<Receiver, NoMemory>
        ensures { IfOk result (λ receiver. receiver ≡ []) }
    {
        Ok(Receiver {
            session: Session::new(alloc, MAX_BODY)?,
            buffer: vec![in alloc; 0; MAX_READ]?,
        })
    }

    /// The next request. Bytes are read only as long as they are needed for it.
    pub(crate) fn receive<L: Link>(&mut self, link: &mut L) -> Result<Request, ReceiveEnd>
        ensures receives { Receives self.old self.new (L.left link.old) (L.left link.new)
            (L.Source.faults link.old) (L.Source.faults link.new) result }
        // the last read began while more bytes were needed, so no response waits for it
        ensures in_time { (link.new ≡ link.old)
            ⊎ IfSome (L.began link.new) (WantedMore self.old (L.left link.old)) }
        ensures unwritten { L.Source.other link.new ≡ L.Source.other link.old }
        ensures quiet { result ≢ Err ReceiveEnd.Failed
            → L.Source.faults link.new ≡ L.Source.faults link.old }
    {
        few_bytes_need_more();
        loop {
            match self.session.next_request()? {
                Frame::Request(request) => return Ok(request),
                Frame::Refused(refusal) => return Err(ReceiveEnd::Refused(refusal)),
                Frame::More => self.take(link)?,
            }
        }
    }

    /// Reads the next bytes of the link, at least one.
    fn take<L: Link>(&mut self, link: &mut L) -> Result<(), ReceiveEnd>
        ensures takes { TakesMore self.old self.new (L.left link.old) (L.left link.new)
            (L.Source.faults link.old) (L.Source.faults link.new) result }
        ensures began { IfSome (L.began link.new) (λ bytes. L.left link.old ≡ Some bytes) }
        ensures unwritten { L.Source.other link.new ≡ L.Source.other link.old }
        ensures quiet { result ≢ Err ReceiveEnd.Failed
            → L.Source.faults link.new ≡ L.Source.faults link.old }
    {
        let count = link.read(&mut self.buffer)?;
        if count == 0 {
            return Err(ReceiveEnd::AtEnd);
        }
        self.session.feed(&self.buffer[..count])?;
        Ok(())
    }
}
