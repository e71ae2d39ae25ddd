ghost use Rattle.std.specs.Prelude.{◌≡◌, ◌≢◌, ◌⊎◌, ℕ, List, [], IfOk, IfErr, OnErr, Err};
ghost use Rattle.flow_edges.specs.Faults.{Counted};
ghost use Rattle.http_messages.specs.declared.status.Status.TheVariants.{Accepted};
ghost use Rattle.taxii_rows.specs.declared.stored_row.StoredRow.{StoredRow as Row};
ghost use Rattle.taxii_store.specs.Agreement.{Agrees, without_rows};
ghost use Rattle.taxii_bodies.specs.declared.problem.Problem.TheVariants as Trouble;
ghost use Rattle.taxii_exchange.specs.declared.refusal.Refusal.TheVariants as Refused;
ghost use Rattle.taxii_exchange.specs.AnswersToRequests.{body_answer as answer_with};
ghost use Rattle.taxii_service.specs.Adding.{IsAdding, CannotAdd, with_added};

use crate::State;
use crate::prepared::Prepared;
use http_messages::Status;
use std::alloc::Global;
use taxii_bodies::Problem;
use taxii_exchange::{Answer, Refusal, body_answer};
use taxii_rows::{Keeper, KeeperRefusal};

/// Adds the objects of a POST at a moment (microseconds since 1970) to a collection, and keeps its
/// status (TAXII 2.1, section 5.5). After an error nothing has changed. `NotJson` and `NotList`
/// refuse the body. `DatesUsedUp` means that too few dates are left, `StoreFault` that the keeper
/// failed. All memory is allocated before the keeper is called.
pub fn add_objects<K: Keeper>(
    alloc: Global,
    collection: u128,
    state: &mut State,
    keeper: &mut K,
    moment: u64,
    body: &[u8],
) -> Result<Answer, Refusal>
    // `kept` is the keeper's observable state: it must be the library's, and stays so
    requires agrees { Agrees (K.kept keeper.old) state.old.library }
    ensures agrees { Agrees (K.kept keeper.new) state.new.library }
    // the keeper's name and attachment stay
    ensures keeper { without_rows (K.kept keeper.new) ≡ without_rows (K.kept keeper.old) }
    // `new` are the new rows, `text` is the status: both the response's body and the kept status
    ensures ok { IfOk result (λ answer. (new : List Row) × (text : List ℕ)
        × IsAdding state.old collection moment body.now new text
        × (answer ≡ answer_with Accepted text)
        × (state.new ≡ with_added new text state.old)) }
    // the reason holds: the request cannot be performed, or the keeper failed although it could
    ensures err { IfErr result (λ refusal. (refusal ≡ Refused.NoMemory)
        ⊎ (CannotAdd state.old collection moment body.now refusal
        ⊎ ((refusal ≡ Refused.Problem Trouble.StoreFault)
        × ((new : List Row) × (text : List ℕ) × (new ≢ [])
        × IsAdding state.old collection moment body.now new text)))) }
    ensures unchanged { OnErr result (state.new ≡ state.old) }
    // the keeper counts a fault exactly if the result is `StoreFault`
    ensures causes { Counted (result ≡ Err (Refused.Problem Trouble.StoreFault))
        (K.faults keeper.old) (K.faults keeper.new) }
{
    let prepared = Prepared::of(alloc, collection, state, moment, body)?;
    let Prepared {
        planned,
        status,
        body,
    } = prepared;
    match state.library.commit_add(keeper, planned) {
        Ok(()) => {
            state.statuses.add(status);
            Ok(body_answer(Status::Accepted, body))
        }
        Err(KeeperRefusal::Fault) => Err(Refusal::Problem(Problem::StoreFault)),
        Err(KeeperRefusal::NoMemory) => Err(Refusal::NoMemory),
    }
}
