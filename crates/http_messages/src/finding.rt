ghost use Rattle.std.specs.Prelude.{◌≡◌, ℕ, ◌≤◌, length, IfOk};
ghost use Rattle.http_messages.specs.declared.request_grammar.TheConstants.{MAX_FIELDS};
ghost use Rattle.http_messages.specs.inner.Searching.{IsSearched, IsFoundFrame, HasNoHead};

use crate::Refusal;
use crate::frame::MAX_HEAD;
use crate::request_checking::{Found, check};
use crate::search::HeadSearch;
use flow_values::NoMemory;
use httparse::spans::HeaderSpan;
use std::alloc::Global;

/// Finds the first frame of the bytes: a request, a refusal, or that more bytes are needed.
pub(crate) fn find_frame(
    alloc: Global,
    max_body: u64,
    bytes: &[u8],
    search: &mut HeadSearch,
    spans: &mut [HeaderSpan],
) -> Result<Found, NoMemory>
    requires searched { IsSearched bytes.now search.old }
    requires room { MAX_FIELDS ≤ length spans.now }
    ensures found { IfOk result (IsFoundFrame max_body bytes.now) }
    ensures searched { IsSearched bytes.now search.new }
{
    let Some(end) = search.find(bytes) else {
        return Ok(without_head(bytes));
    };
    if end > MAX_HEAD {
        return Ok(Found::Refused(Refusal::HeadTooLarge));
    }
    check(alloc, max_body, bytes, search.start, end, spans)
}

/// The result if the bytes contain no complete head.
fn without_head(bytes: &[u8]) -> Found
    requires { HasNoHead bytes.now }
    ensures { (greatest : ℕ) → IsFoundFrame greatest bytes.now result }
{
    if bytes.len() < MAX_HEAD {
        Found::More(0)
    } else {
        Found::Refused(Refusal::HeadTooLarge)
    }
}
