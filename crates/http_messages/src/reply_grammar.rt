ghost use Rattle.std.specs.Prelude.{◌≡◌, ◌≤◌, None, length, IfSome};
ghost use Rattle.http_messages.specs.declared.frame.TheConstants.{MAX_HEAD};
ghost use Rattle.http_messages.specs.ReplyHeads.{IsUnreadableResponseHead};
ghost use Rattle.http_messages.specs.inner.ReplyParsing.{IsParsedResponse};

use httparse::Status;
use httparse::spans::{HeaderSpan, ResponseSpans, parse_response};

/// The maximum number of fields in a head of `MAX_HEAD` bytes: each takes at least three.
pub(crate) const MAX_FIELDS: usize = 5461;

/// Parses a head, if the bytes are exactly one, and returns the spans of its parts.
pub(crate) fn parse(head: &[u8], spans: &mut [HeaderSpan]) -> Option<ResponseSpans>
    requires size { length head.now ≤ MAX_HEAD }
    requires room { MAX_FIELDS ≤ length spans.now }
    ensures some { IfSome result (IsParsedResponse head.now spans.new) }
    ensures none { result ≡ None → IsUnreadableResponseHead head.now }
{
    match parse_response(head, spans) {
        Ok(Status::Complete(read)) => {
            if read.len == head.len() {
                Some(read)
            } else {
                None
            }
        }
        Ok(Status::Partial) => None,
        Err(_) => None,
    }
}
