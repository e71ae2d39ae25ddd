ghost use Rattle.std.specs.Prelude.{◌≡◌, ◌⊎◌, option_map, IfOk, IfErr};
ghost use Rattle.stix_json.specs.Envelopes.{IsEnvelopeOf};
ghost use Rattle.taxii_client.specs.Environment.{link_view};
ghost use Rattle.taxii_client.specs.Fetches.{Fetched, IsNoEnvelope};
ghost use Rattle.taxii_client.specs.ReplyRefusals.{for_body};
ghost use Rattle.taxii_client.specs.declared.fetch_end.FetchEnd.TheVariants as FetchEnd;
ghost use Rattle.taxii_client.specs.declared.reply_refusal.ReplyRefusal.TheVariants.{NotEnvelope};

use crate::{FetchEnd, ReplyRefusal, Target, request_text};
use flow_edges::write_whole;
use flow_links::Link;
use http_messages::read_reply;
use http_messages::reply_laws::all_are_needed;
use std::alloc::Global;
use stix_json::{Envelope, JsonRefusal, read_envelope};

/// Requests a page over a link: the first page of the target, or the one after the cursor `next`.
/// Reads the response, and no byte after it.
pub fn fetch<L: Link>(
    alloc: Global,
    target: &Target,
    next: Option<&str>,
    link: &mut L,
) -> Result<Envelope, FetchEnd>
    ensures { Fetched target.now (option_map (λ next. next.now) next.entry)
        (link_view L.left L.written L.Source.faults L.Sink.faults link.old)
        (link_view L.left L.written L.Source.faults L.Sink.faults link.new) result }
{
    all_are_needed();
    let text = request_text(alloc, target, next)?;
    write_whole(link, text.as_str().as_bytes())?;
    let body = read_reply(alloc, link)?;
    page_of(alloc, body.as_slice())
}

/// Parses the body of a response as a page.
fn page_of(alloc: Global, body: &[u8]) -> Result<Envelope, FetchEnd>
    ensures ok { IfOk result (λ envelope. IsEnvelopeOf body.now envelope) }
    ensures err { IfErr result (λ end. (end ≡ FetchEnd.NoMemory)
        ⊎ ((end ≡ FetchEnd.Refused NotEnvelope) × IsNoEnvelope body.now)) }
{
    match read_envelope(alloc, body) {
        Ok(envelope) => Ok(envelope),
        Err(refusal) => Err(end_for(&refusal)),
    }
}

/// The result for a body that is no page.
fn end_for(refusal: &JsonRefusal) -> FetchEnd
    ensures { result ≡ for_body refusal.now }
{
    match refusal {
        JsonRefusal::NoMemory => FetchEnd::NoMemory,
        JsonRefusal::NotJson
        | JsonRefusal::TooDeep { .. }
        | JsonRefusal::NotWhole { .. }
        | JsonRefusal::Null { .. }
        | JsonRefusal::OutOfRange { .. }
        | JsonRefusal::NotList => FetchEnd::Refused(ReplyRefusal::NotEnvelope),
    }
}
