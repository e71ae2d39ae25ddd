ghost use Rattle.std.specs.Prelude.{◌≡◌, ◌≤◌, length, map, IfOk};
ghost use Rattle.http_messages.specs.Fields.{values};
ghost use Rattle.http_messages.specs.Frames.{IsRequestHeadReadAs};
ghost use Rattle.http_messages.specs.inner.RequestParsing.{IsParsedRequest};

use crate::ascii::same_name;
use flow_values::NoMemory;
use httparse::spans::{HeaderSpan, RequestSpans};
use std::alloc::Global;
use std::marker::Model;

/// The head of a request as `httparse` splits it. Its model is the list of its parts.
#[derive(Drop)]
pub(crate) struct Head<'a> {
    bytes: &'a [u8],
    method: &'a [u8],
    target: &'a [u8],
    minor: u8,
    spans: &'a [HeaderSpan],
}

impl<'a> Model for Head<'a> {
    ghost use Rattle.std.specs.Prelude.{map, length, All};
    ghost use Rattle.httparse.specs.Spans.{header_bytes, IsHeaderWithin};
    ghost use Rattle.http_messages.specs.Fields.{HeadParts};

    ghost Value = { HeadParts };

    ghost view = { λ head. record {
      method = head.method.now;
      target = head.target.now;
      minor = head.minor;
      fields = map (header_bytes head.bytes.now) head.spans.now;
    } };

    ghost invariant = { λ head. All (IsHeaderWithin (length head.bytes.now)) head.spans.now };
}

impl<'a> Head<'a> {
    /// The head with these spans.
    pub(crate) fn new(bytes: &'a [u8], spans: &'a [HeaderSpan], read: RequestSpans) -> Head<'a>
        requires { IsParsedRequest bytes.now spans.now read }
        ensures { IsRequestHeadReadAs bytes.now result }
    {
        Head {
            bytes,
            method: read.method.of(bytes),
            target: read.path.of(bytes),
            minor: read.version,
            spans: &spans[..read.headers],
        }
    }

    /// The method's name.
    pub(crate) fn method(&self) -> &'a [u8]
        ensures { result.now ≡ self.now.method }
    {
        self.method
    }

    /// The target.
    pub(crate) fn target(&self) -> &'a [u8]
        ensures { result.now ≡ self.now.target }
    {
        self.target
    }

    /// The minor version: 0 for HTTP/1.0, 1 for HTTP/1.1.
    pub(crate) fn minor(&self) -> u8
        ensures { result ≡ self.now.minor }
    {
        self.minor
    }

    /// The values of all fields with this name, in order.
    pub(crate) fn values(&self, alloc: Global, name: &[u8]) -> Result<Vec<&'a [u8]>, NoMemory>
        ensures { IfOk result
            (λ found. map (λ value. value.now) found.items ≡ values name.now self.now) }
    {
        let mut found = Vec::new(alloc);
        for span in self.spans {
            if same_name(span.name.of(self.bytes), name) {
                found.push(span.value.of(self.bytes))?;
            }
        }
        Ok(found)
    }
}
