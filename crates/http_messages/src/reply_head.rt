ghost use Rattle.std.specs.Prelude.{◌≡◌, ◌≤◌, length, map, IfOk};
ghost use Rattle.http_messages.specs.Fields.{values_among};
ghost use Rattle.http_messages.specs.ReplyHeads.{IsResponseHeadReadAs};
ghost use Rattle.http_messages.specs.inner.ReplyParsing.{IsParsedResponse};

use crate::same_name;
use flow_values::NoMemory;
use httparse::spans::{HeaderSpan, ResponseSpans};
use std::alloc::Global;
use std::marker::Model;

/// The head of a response as `httparse` splits it. Its model is the list of its parts.
#[derive(Drop)]
pub(crate) struct Head<'a> {
    bytes: &'a [u8],
    status: u16,
    spans: &'a [HeaderSpan],
}

impl<'a> Model for Head<'a> {
    ghost use Rattle.std.specs.Prelude.{map, length, All};
    ghost use Rattle.httparse.specs.Spans.{header_bytes, IsHeaderWithin};
    ghost use Rattle.http_messages.specs.ReplyHeads.{ReplyHeadParts};

    ghost Value = { ReplyHeadParts };

    ghost view = { λ head. record {
      status = head.status;
      fields = map (header_bytes head.bytes.now) head.spans.now;
    } };

    ghost invariant = { λ head. All (IsHeaderWithin (length head.bytes.now)) head.spans.now };
}

impl<'a> Head<'a> {
    /// The head with these spans.
    pub(crate) fn new(bytes: &'a [u8], spans: &'a [HeaderSpan], read: ResponseSpans) -> Head<'a>
        requires { IsParsedResponse bytes.now spans.now read }
        ensures { IsResponseHeadReadAs bytes.now result }
    {
        Head {
            bytes,
            status: read.code,
            spans: &spans[..read.headers],
        }
    }

    /// The status code.
    pub(crate) fn status(&self) -> u16
        ensures { result ≡ self.now.status }
    {
        self.status
    }

    /// The values of all fields with this name, in order.
    pub(crate) fn values(&self, alloc: Global, name: &[u8]) -> Result<Vec<&'a [u8]>, NoMemory>
        ensures { IfOk result
            (λ found. map (λ value. value.now) found.items
            ≡ values_among name.now self.now.fields) }
    {
        let mut found = Vec::new(alloc);
        for span in self.spans {
            if same_name(span.name.of(self.bytes), name) {
                found.push(span.value.of(self.bytes))?;
            }
        }
        Ok(found)
    }
}
