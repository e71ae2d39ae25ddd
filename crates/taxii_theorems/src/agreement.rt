//! Theorems about the definitions. Each `ensures` states one; the functions have no effect.

ghost use Rattle.std.specs.Prelude.{◌≡◌, ◌≤◌, ◌<◌, ◌^◌, ◌++◌, ℕ, ℤ, Bool, List, Option, Some};
ghost use Rattle.std.specs.Prelude.{All, length};
ghost use Rattle.http_messages.specs.declared.status.Status.TheVariants.{Okay};
ghost use Rattle.taxii_exchange.specs.declared.answer.Answer.{Answer};
ghost use Rattle.taxii_exchange.specs.Answers.{IsAnswerText};
ghost use Rattle.http_messages.specs.Replies.{IsReply};
ghost use Rattle.stix_json.specs.declared.envelope.Envelope.{Envelope};
ghost use Rattle.stix_json.specs.Envelopes.{IsEnvelopeOf};
ghost use Rattle.taxii_rows.specs.declared.stored_row.StoredRow.{StoredRow};
ghost use Rattle.taxii_rows.specs.declared.stored_row.TheConstants.{LAST_DATE};
ghost use Rattle.taxii_rows.specs.SoundRow.{IsSoundRow};
ghost use Rattle.taxii_rows.specs.StoreState.{StoreState};
ghost use Rattle.taxii_bodies.specs.Envelope.{envelope_text};
ghost use Rattle.taxii_store.specs.History.{IsDated};
ghost use Rattle.taxii_service.specs.Exchanges.{IsExchange};
ghost use Rattle.taxii_theorems.specs.Runs.{Run, Round, Continue, rounds_of};
ghost use Rattle.taxii_client.specs.Environment.{ClientLinkView};
ghost use Rattle.taxii_client.specs.Pulls.{Page, IsPull};
ghost use Rattle.taxii_client.specs.declared.target.Target.{Target};
ghost use Rattle.taxii_client.specs.declared.cursor.Cursor.TheVariants.{Over};
ghost use Rattle.taxii_theorems.specs.Reading.{IsPageReadAs};
ghost use Rattle.taxii_theorems.specs.Asking.{IsServersOwn, IsVisibleToken, IsAnswered};
ghost use Rattle.taxii_theorems.specs.Asking.{IsUnderstood, IsInstantOf, wanted_after};
ghost use Rattle.taxii_theorems.specs.Pulling.{AreServed, WritesEachRow};

use crate::runs::clients_skip_no_row;
use flow_links::Dial;
use stix_ids::laws::one_uuid;
use stix_times::laws::one_instant;
use taxii_bodies::laws::envelopes_are_json;
use taxii_routes::laws::{one_route, one_target};
use taxii_service::history_laws::{answered_requests_were_done, gets_are_paged};
use taxii_store::page_laws::rows_of_pages;

/// If a byte string begins with a server's 200 response and with a response that a client accepts,
/// both have the same body.
pub fn answers_are_replies()
    ensures { (answer : Answer) (close : Bool) (text later reply body own rest : List ℕ)
        → answer.status ≡ Okay → answer.body ≡ Some own
        → IsAnswerText answer close text → length text < 2 ^ 64 → IsReply reply body
        → text ++ later ≡ reply ++ rest → body ≡ own }
{}

/// A client reads a page of sound rows as their objects, all valid, and as the cursor of the next
/// page.
pub fn pages_are_read_back()
    ensures { (rows : List StoredRow) (more : Bool) (envelope : Envelope) → All IsSoundRow rows
        → IsEnvelopeOf (envelope_text rows more) envelope → IsPageReadAs rows more envelope }
{
    envelopes_are_json();
}

/// If a server answers a client's request with 200, it parsed the request as intended. That is a
/// fetch of all versions in the collection, with the client's `next` and its `added_after`.
pub fn requests_are_understood()
    ensures { (target : Target) (next : Option (List ℕ)) (round : Round) → IsServersOwn target
        → IsVisibleToken next → IsAnswered target next round
        → IsExchange round.config round.exchange → IsUnderstood target next round }
{
    one_target();
    one_route();
    one_uuid();
    answered_requests_were_done();
}

/// A client that pulls a collection to the end misses nothing. It writes the stored text of each
/// row that it requested (all, or those added after its time) and that is still stored at the last
/// page. It writes each once, in the order of dates, whatever others add and delete between two
/// pages, and over restarts.
pub fn pulls_skip_no_row<D: Dial>()
    ensures { (view : D.Link
        → ClientLinkView) (target : Target) (instant : Option ℤ) (pages : List (Page D.Link))
        (store after : StoreState) (runs : List Run) (rounds : List Round)
        → IsDated store → store.watermark ≤ LAST_DATE → Continue store runs after
        → IsPull view target pages Over
        → AreServed view target pages (rounds_of runs) rounds → IsInstantOf target.since instant
        → WritesEachRow (wanted_after target instant) pages rounds }
{
    one_instant();
    requests_are_understood();
    answers_are_replies();
    pages_are_read_back();
    rows_of_pages();
    gets_are_paged();
    clients_skip_no_row();
}
