ghost use Rattle.std.specs.Prelude.{◌≡◌, ◌≤◌, [], None, length, IfSome};
ghost use Rattle.httparse.specs.Grammar.{RequestHead, ReadsRequest};
ghost use Rattle.httparse.specs.Spans.{IsRequestWithin};
ghost use Rattle.http_messages.specs.declared.frame.TheConstants.{MAX_HEAD};
ghost use Rattle.http_messages.specs.Frames.{IsUnreadableRequestHead};
ghost use Rattle.http_messages.specs.inner.RequestParsing.{IsParsedRequest};

use httparse::Status;
use httparse::spans::{HeaderSpan, RequestSpans, parse_request};

/// The maximum number of fields in a head of `MAX_HEAD` bytes: each takes at least three.
pub(crate) const MAX_FIELDS: usize = 5461;

/// Parses a head, if the bytes are exactly one, and returns the spans of its parts.
pub(crate) fn parse(head: &[u8], spans: &mut [HeaderSpan]) -> Option<RequestSpans>
    requires size { length head.now ≤ MAX_HEAD }
    requires room { MAX_FIELDS ≤ length spans.now }
    ensures some { IfSome result (IsParsedRequest head.now spans.new) }
    ensures none { result ≡ None → IsUnreadableRequestHead head.now }
{
    match parse_request(head, spans) {
        Ok(Status::Complete(read)) => {
            if read.len == head.len() {
                Some(read)
            } else {
                None
            }
        }
        Ok(Status::Partial) => None,
        Err(_) => None,
    }
}
