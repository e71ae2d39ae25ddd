ghost use Rattle.std.specs.Prelude.{◌≡◌, ◌≢◌, ◌⊎◌, ◌↔◌, ℕ, List, [], ◌∷◌, None, Some, true, IsTrue};
ghost use Rattle.std.specs.Prelude.{IfOk, IfErr, OnErr, Err};
ghost use Rattle.flow_edges.specs.Faults.{Counted};
ghost use Rattle.http_messages.specs.declared.status.Status.TheVariants.{Okay};
ghost use Rattle.stix_ids.specs.declared.pick.Pick.TheVariants.{All as PickAll};
ghost use Rattle.taxii_rows.specs.StoreState.{AscendFrom};
ghost use Rattle.taxii_store.specs.Agreement.{Agrees, without_rows};
ghost use Rattle.taxii_store.specs.Deleting.{AreDatesTaken};
ghost use Rattle.taxii_bodies.specs.declared.problem.Problem.TheVariants as Trouble;
ghost use Rattle.taxii_exchange.specs.declared.refusal.Refusal.TheVariants as Refused;
ghost use Rattle.taxii_exchange.specs.AnswersToRequests.{bare_answer as bare};
ghost use Rattle.taxii_service.specs.Deleting.{AreDeleted, AllowsStandard, deleted_picks};
ghost use Rattle.taxii_service.specs.Deleting.{without_dates};

use crate::State;
use flow_values::{Items, NoMemory};
use http_messages::Status;
use std::alloc::Global;
use stix_ids::{Id, Pick};
use taxii_bodies::Problem;
use taxii_exchange::{Answer, Refusal, bare_answer};
use taxii_routes::Query;
use taxii_rows::{Keeper, KeeperRefusal};
use taxii_store::Library;

/// Deletes the versions of an object that the query selects, by default all (TAXII 2.1, section
/// 5.7). After an error nothing has changed; `StoreFault` means that the keeper failed.
pub fn delete_object<K: Keeper>(
    alloc: Global,
    collection: u128,
    id: &Id,
    query: Query,
    state: &mut State,
    keeper: &mut K,
) -> Result<Answer, Refusal>
    // `kept` is the keeper's observable state: it must be the library's, and stays so
    requires agrees { Agrees (K.kept keeper.old) state.old.library }
    ensures agrees { Agrees (K.kept keeper.new) state.new.library }
    ensures keeper { without_rows (K.kept keeper.new) ≡ without_rows (K.kept keeper.old) }
    ensures ok { IfOk result (λ answer. (dates : List ℕ)
        × AreDeleted state.old.library collection id.now query dates
        × (answer ≡ bare Okay None) × (state.new ≡ without_dates dates state.old)) }
    // with no rows to delete, the keeper is not called and cannot fail
    ensures err { IfErr result (λ refusal. (refusal ≡ Refused.NoMemory)
        ⊎ ((refusal ≡ Refused.Problem Trouble.StoreFault)
        × ((dates : List ℕ) × (dates ≢ [])
        × AreDeleted state.old.library collection id.now query dates))) }
    ensures unchanged { OnErr result (state.new ≡ state.old) }
    // the keeper counts a fault exactly if the result is `StoreFault`
    ensures causes { Counted (result ≡ Err (Refused.Problem Trouble.StoreFault))
        (K.faults keeper.old) (K.faults keeper.new) }
{
    let dates = dates_of(alloc, collection, id, query, &state.library)?;
    match state.library.commit_delete(keeper, dates.as_slice()) {
        Ok(()) => Ok(bare_answer(Status::Okay, None)),
        Err(KeeperRefusal::Fault) => Err(Refusal::Problem(Problem::StoreFault)),
        Err(KeeperRefusal::NoMemory) => Err(Refusal::NoMemory),
    }
}

/// The dates of the rows to be deleted.
fn dates_of(
    alloc: Global,
    collection: u128,
    id: &Id,
    query: Query,
    library: &Library,
) -> Result<Items<u64>, NoMemory>
    ensures deleted { IfOk result (AreDeleted library.now collection id.now query) }
    ensures ascend { IfOk result (AscendFrom 0) }
{
    if !allows_standard(&query) {
        return Ok(Items::new(alloc));
    }
    let picks = picks_of(alloc, query)?;
    taken_dates(collection, id, picks.as_slice(), library)
}

/// The dates of the rows that the version filters select.
fn taken_dates(
    collection: u128,
    id: &Id,
    picks: &[Pick],
    library: &Library,
) -> Result<Items<u64>, NoMemory>
    ensures taken { IfOk result (AreDatesTaken library.now.rows collection id.now picks.now) }
    ensures ascend { IfOk result (AscendFrom 0) }
{
    library.plan_delete(collection, id, picks)
}

/// Whether `match[spec_version]` allows 2.1.
fn allows_standard(query: &Query) -> bool
    ensures { IsTrue result ↔ AllowsStandard query.now }
{
    match &query.specs {
        Some(specs) => specs.as_slice().iter().any(|spec| spec.as_str() == "2.1"),
        None => true,
    }
}

/// The version filters of a deletion; the default is all versions.
fn picks_of(alloc: Global, query: Query) -> Result<Items<Pick>, NoMemory>
    ensures { IfOk result (λ picks. picks ≡ deleted_picks query) }
{
    let Query { picks, .. } = query;
    match picks {
        Some(picks) => Ok(picks),
        None => all_versions(alloc),
    }
}

fn all_versions(alloc: Global) -> Result<Items<Pick>, NoMemory>
    ensures { IfOk result (λ picks. picks ≡ PickAll ∷ []) }
{
    let mut picks = Items::new(alloc);
    picks.push(Pick::All)?;
    Ok(picks)
}
