ghost use Rattle.std.specs.Prelude.{◌≡◌, ◌⊎◌, ◌+◌, ◌<◌, ◌^◌, ℕ, List, All, IfOk, IfErr, length};
ghost use Rattle.std.specs.Prelude.{codes};
ghost use Rattle.stix_json.specs.Entries.{HasNoEntriesAs};
ghost use Rattle.taxii_exchange.specs.declared.refusal.Refusal.TheVariants as Refused;
ghost use Rattle.taxii_store.specs.Planned.{IsSound};
ghost use Rattle.taxii_service.specs.Posted.{HoldsEntries, IsPosted, IsUnreadableBody};
ghost use Rattle.taxii_service.specs.inner.Posting.{IsTakenEntry};

use crate::Posted;
use flow_values::NoMemory;
use std::alloc::Global;
use stix_json::{Entry, JsonRefusal, read_entries};
use taxii_bodies::Problem;
use taxii_exchange::Refusal;

/// Parses the body of a POST (section 5.5) that arrived at a moment (microseconds since 1970). An
/// entry that is no JSON value or violates a rule is a failure; its detail names the first
/// violation. Any other entry is an object. Without `objects` there are no entries. `NotJson` if
/// the body is no JSON, `NotList` if `objects` is no list.
pub fn read_posted(alloc: Global, body: &[u8], moment: u64) -> Result<Posted, Refusal>
    ensures ok { IfOk result (IsPosted body.now moment) }
    ensures sound { IfOk result (λ posted. All IsSound posted.objects.items) }
    ensures few { IfOk result
        (λ posted. length posted.objects.items + posted.failure_count < 2 ^ 63) }
    ensures err { IfErr result (λ refusal. (refusal ≡ Refused.NoMemory)
        ⊎ IsUnreadableBody body.now refusal) }
{
    match read_entries(alloc, body, "objects") {
        Ok(entries) => Ok(check_entries(alloc, entries.into_vec(), moment)?),
        Err(refusal) => Err(refusal_of_body(refusal)),
    }
}

/// The reader's refusal of a body as that of the request.
fn refusal_of_body(refusal: JsonRefusal) -> Refusal
    ensures { (body : List ℕ) → HasNoEntriesAs body (codes "objects") refusal
        → (result ≡ Refused.NoMemory) ⊎ IsUnreadableBody body result }
{
    match refusal {
        JsonRefusal::NotList => Refusal::Problem(Problem::NotList),
        JsonRefusal::NoMemory => Refusal::NoMemory,
        // refusals with a path concern an entry, never the whole body
        JsonRefusal::NotJson
        | JsonRefusal::TooDeep { .. }
        | JsonRefusal::NotWhole { .. }
        | JsonRefusal::Null { .. }
        | JsonRefusal::OutOfRange { .. } => Refusal::Problem(Problem::NotJson),
    }
}

/// Checks the entries. Each is dropped after its check, so the memory of the parsed entries shrinks
/// as that of the objects grows.
fn check_entries(alloc: Global, entries: Vec<Entry>, moment: u64) -> Result<Posted, NoMemory>
    requires { All IsTakenEntry entries.items }
    ensures holds { IfOk result (HoldsEntries moment entries.items) }
    ensures sound { IfOk result (λ posted. All IsSound posted.objects.items) }
    ensures few { IfOk result
        (λ posted. length posted.objects.items + posted.failure_count < 2 ^ 63) }
{
    let mut posted = Posted::empty(alloc);
    for entry in entries {
        posted.add(alloc, entry, moment)?;
    }
    Ok(posted)
}
