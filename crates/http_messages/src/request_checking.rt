ghost use Rattle.std.specs.Prelude.{◌≡◌, ◌≤◌, ◌<◌, ◌^◌, false, [], length, IfOk};
ghost use Rattle.std.specs.Str.{IsUtf8};
ghost use Rattle.http_messages.specs.Fields.{has_bad_host, has_bad_text, has_bad_text_in};
ghost use Rattle.http_messages.specs.Fields.{has_coding, has_bad_length, lacks_length, body_length};
ghost use Rattle.http_messages.specs.Fields.{closes};
ghost use Rattle.http_messages.specs.Frames.{HoldsHead, head_refusal, framed_request};
ghost use Rattle.http_messages.specs.declared.request_grammar.TheConstants.{MAX_FIELDS};
ghost use Rattle.http_messages.specs.inner.Searching.{IsFoundFrame};

use crate::buffer::Buffer;
use crate::close::any_asks_to_close;
use crate::length::{all_state, first_length};
use crate::request_grammar::parse;
use crate::request_head::Head;
use crate::texts::{are_texts, first_text, joined, text_of};
use crate::{Body, Method, Refusal, Request};
use flow_values::{NoMemory, Text};
use httparse::spans::HeaderSpan;
use std::alloc::Global;

/// The first frame of some bytes, before the body is taken out of the buffer.
#[derive(Drop)]
pub(crate) enum Found {
    /// More bytes are needed; at least this many in all, or 0 if the head is incomplete.
    More(usize),
    /// A request, still without its body, and the range of the body in the bytes. The request ends
    /// with it.
    Request {
        request: Request,
        start: usize,
        end: usize,
    },
    Refused(Refusal),
}

/// Checks the head in `bytes[start..end]`, and finds its body if that is complete.
pub(crate) fn check(
    alloc: Global,
    max_body: u64,
    bytes: &[u8],
    start: usize,
    end: usize,
    spans: &mut [HeaderSpan],
) -> Result<Found, NoMemory>
    requires head { HoldsHead bytes.now start end }
    requires room { MAX_FIELDS ≤ length spans.now }
    ensures { IfOk result (IsFoundFrame max_body bytes.now) }
{
    let head = &bytes[start..end];
    let Some(read) = parse(head, spans) else {
        return Ok(Found::Refused(Refusal::BadRequest));
    };
    let head = Head::new(head, spans, read);
    if let Some(refusal) = head.refusal(alloc, max_body)? {
        return Ok(Found::Refused(refusal));
    }
    let whole = end + head.body_length(alloc)? as usize;
    if bytes.len() < whole {
        return Ok(Found::More(whole));
    }
    let request = head.request(alloc)?;
    Ok(Found::Request {
        request,
        start: end,
        end: whole,
    })
}

impl<'a> Head<'a> {
    /// The first reason to refuse the head, if any.
    fn refusal(&self, alloc: Global, max_body: u64) -> Result<Option<Refusal>, NoMemory>
        ensures { IfOk result (λ refusal. refusal ≡ head_refusal max_body self.now) }
    {
        if self.has_bad_host(alloc)? {
            return Ok(Some(Refusal::BadRequest));
        }
        if self.has_bad_text(alloc)? {
            return Ok(Some(Refusal::BadRequest));
        }
        if self.has_coding(alloc)? {
            return Ok(Some(Refusal::TransferCoding));
        }
        if self.has_bad_length(alloc)? {
            return Ok(Some(Refusal::BadRequest));
        }
        if self.lacks_length(alloc)? {
            return Ok(Some(Refusal::LengthRequired));
        }
        if max_body < self.body_length(alloc)? {
            return Ok(Some(Refusal::BodyTooLarge));
        }
        Ok(None)
    }

    /// The request, with an empty body.
    fn request(&self, alloc: Global) -> Result<Request, NoMemory>
        requires target { IsUtf8 self.now.target }
        requires texts { has_bad_text self.now ≡ false }
        ensures { IfOk result (λ request. request ≡ framed_request self.now []) }
    {
        let close = self.closes(alloc)?;
        let accept = joined(alloc, &self.values(alloc, b"accept")?)?;
        let content_type = first_text(alloc, &self.values(alloc, b"content-type")?)?;
        let target = Text::from_text(alloc, text_of(self.target()))?;
        Ok(Request {
            method: Method::of(alloc, self.method()),
            target,
            accept,
            content_type,
            body: Body::new(Buffer::new(alloc)),
            close,
        })
    }

    /// Whether Host is repeated, or missing in HTTP/1.1 (RFC 9112, section 3.2).
    fn has_bad_host(&self, alloc: Global) -> Result<bool, NoMemory>
        ensures { IfOk result (λ bad. bad ≡ has_bad_host self.now) }
    {
        let hosts = self.values(alloc, b"host")?.len();
        Ok((self.minor() == 1 && hosts == 0) || hosts > 1)
    }

    /// Whether a field that is read as text is not UTF-8.
    fn has_bad_text(&self, alloc: Global) -> Result<bool, NoMemory>
        ensures { IfOk result (λ bad. bad ≡ has_bad_text self.now) }
    {
        if self.has_bad_text_in(alloc, b"accept")? {
            return Ok(true);
        }
        if self.has_bad_text_in(alloc, b"content-type")? {
            return Ok(true);
        }
        self.has_bad_text_in(alloc, b"connection")
    }

    /// Whether a field with this name is not UTF-8.
    fn has_bad_text_in(&self, alloc: Global, name: &[u8]) -> Result<bool, NoMemory>
        ensures { IfOk result (λ bad. bad ≡ has_bad_text_in name.now self.now) }
    {
        let values = self.values(alloc, name)?;
        Ok(!are_texts(&values))
    }

    /// Whether the body has a transfer coding, which this server does not decode.
    fn has_coding(&self, alloc: Global) -> Result<bool, NoMemory>
        ensures { IfOk result (λ coding. coding ≡ has_coding self.now) }
    {
        let codings = self.values(alloc, b"transfer-encoding")?;
        Ok(codings.len() > 0)
    }

    /// Whether the Content-Length values are malformed or differ.
    fn has_bad_length(&self, alloc: Global) -> Result<bool, NoMemory>
        ensures { IfOk result (λ bad. bad ≡ has_bad_length self.now) }
    {
        let lengths = self.values(alloc, b"content-length")?;
        Ok(!all_state(&lengths, first_length(&lengths)))
    }

    /// Whether this is a POST without Content-Length.
    fn lacks_length(&self, alloc: Global) -> Result<bool, NoMemory>
        ensures { IfOk result (λ lacks. lacks ≡ lacks_length self.now) }
    {
        let lengths = self.values(alloc, b"content-length")?.len();
        Ok(Method::of(alloc, self.method()).is_post() && lengths == 0)
    }

    /// The length of the body in bytes.
    fn body_length(&self, alloc: Global) -> Result<u64, NoMemory>
        ensures length { IfOk result (λ size. size ≡ body_length self.now) }
        ensures small { IfOk result (λ size. size < 10 ^ 18) }
    {
        let lengths = self.values(alloc, b"content-length")?;
        Ok(first_length(&lengths))
    }

    /// Whether the connection closes after the response: HTTP/1.0, or `Connection: close`.
    fn closes(&self, alloc: Global) -> Result<bool, NoMemory>
        ensures { IfOk result (λ close. close ≡ closes self.now) }
    {
        let connection = self.values(alloc, b"connection")?;
        Ok(self.minor() == 0 || any_asks_to_close(&connection))
    }
}
