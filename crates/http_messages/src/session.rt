ghost use Rattle.std.specs.Prelude.{◌≡◌, ◌++◌, [], IfOk, OnOk, OnErr};
ghost use Rattle.http_messages.specs.Frames.{SessionState, IsFirstFrame};

use crate::buffer::Buffer;
use crate::finding::find_frame;
use crate::request_checking::Found;
use crate::request_grammar::MAX_FIELDS;
use crate::search::HeadSearch;
use crate::{Body, Frame};
use flow_values::NoMemory;
use httparse::spans::{EMPTY_HEADER_SPAN, HeaderSpan};
use std::alloc::Global;
use std::marker::Model;

/// An incremental parser for the requests of one connection (RFC 9112). Its model is the maximum
/// body size and the bytes that were fed and not yet returned as a request.
#[derive(Drop)]
pub struct Session {
    alloc: Global,
    max_body: u64,
    buffer: Buffer,
    search: HeadSearch,
    /// Below this many buffered bytes, the next frame is known to be `More`.
    needed: usize,
    spans: Vec<HeaderSpan>,
}

impl Model for Session {
    ghost use Rattle.http_messages.specs.Frames.{SessionState};
    ghost use Rattle.http_messages.specs.inner.Sessions.{IsSession};

    ghost Value = { SessionState };

    ghost view = { λ session. record { max_body = session.max_body; fed = session.buffer } };

    ghost invariant = { λ session.
        IsSession session.max_body session.buffer session.search session.needed
        session.spans.items };
}

impl Session {
    /// A session without bytes. It accepts bodies of at most `max_body` bytes.
    pub fn new(alloc: Global, max_body: u64) -> Result<Session, NoMemory>
        ensures { IfOk result (λ session. session ≡ record { max_body = max_body; fed = [] }) }
    {
        let spans = vec![in alloc; EMPTY_HEADER_SPAN; MAX_FIELDS]?;
        Ok(Session {
            alloc,
            max_body,
            buffer: Buffer::new(alloc),
            search: HeadSearch::new(),
            needed: 0,
            spans,
        })
    }

    /// Appends the next bytes of the connection. When out of memory, the session is unchanged.
    pub fn feed(&mut self, chunk: &[u8]) -> Result<(), NoMemory>
        ensures ok { OnOk result
            (self.new ≡ record { max_body = self.old.max_body; fed = self.old.fed ++ chunk.now }) }
        ensures err { OnErr result (self.new ≡ self.old) }
    {
        self.buffer.push(chunk)?;
        Ok(())
    }

    /// The first frame of the buffered bytes. A request is removed from them. `More` and `Refused`
    /// leave them, so a refusal is repeated. When out of memory, the session is unchanged.
    pub fn next_request(&mut self) -> Result<Frame, NoMemory>
        // `self.new.fed` are the bytes after a request; otherwise all bytes stay
        ensures first { IfOk result
            (λ frame. IsFirstFrame self.old.max_body self.old.fed frame self.new.fed) }
        ensures greatest { self.new.max_body ≡ self.old.max_body }
        ensures err { OnErr result (self.new ≡ self.old) }
    {
        if self.buffer.as_slice().len() < self.needed {
            return Ok(Frame::More);
        }
        let found = find_frame(
            self.alloc,
            self.max_body,
            self.buffer.as_slice(),
            &mut self.search,
            &mut self.spans,
        )?;
        match found {
            Found::More(needed) => {
                self.needed = needed;
                Ok(Frame::More)
            }
            Found::Request {
                mut request,
                start,
                end,
            } => {
                let Ok(body) = self.buffer.take(self.alloc, start, end) else {
                    drop(request);
                    return Err(NoMemory);
                };
                request.body = Body::new(body);
                self.search = HeadSearch::new();
                self.needed = 0;
                Ok(Frame::Request(request))
            }
            Found::Refused(refusal) => Ok(Frame::Refused(refusal)),
        }
    }
}
