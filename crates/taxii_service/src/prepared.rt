ghost use Rattle.std.specs.Prelude.{◌≡◌, ◌⊎◌, ◌<◌, All, IfOk, IfErr};
ghost use Rattle.taxii_store.specs.Addition.{IsAddition, UsesUpDates};
ghost use Rattle.taxii_store.specs.Planned.{IsSound};
ghost use Rattle.taxii_bodies.specs.Status.{status_id_of};
ghost use Rattle.taxii_bodies.specs.declared.problem.Problem.TheVariants as Trouble;
ghost use Rattle.taxii_exchange.specs.declared.refusal.Refusal.TheVariants as Refused;
ghost use Rattle.taxii_exchange.specs.Statuses.{next_number};
ghost use Rattle.taxii_service.specs.Adding.{IsAdding, CannotAdd};

use crate::outcomes::report_of;
use crate::{Posted, State, read_posted};
use flow_values::Text;
use std::alloc::Global;
use taxii_bodies::{Problem, status_body};
use taxii_exchange::{KeptStatus, Refusal};
use taxii_rows::Described;
use taxii_store::store_laws::outcomes_have_rows;
use taxii_store::{Library, PlanRefusal, Planned};

/// A POST that is ready to be committed, with all memory allocated.
#[derive(Drop)]
pub(crate) struct Prepared {
    pub(crate) planned: Planned,
    pub(crate) status: KeptStatus,
    pub(crate) body: Text,
}

impl Prepared {
    /// Prepares a POST to a collection that arrived at `moment`.
    pub(crate) fn of(
        alloc: Global,
        collection: u128,
        state: &State,
        moment: u64,
        body: &[u8],
    ) -> Result<Prepared, Refusal>
        ensures watermark { IfOk result
            (λ prepared. prepared.planned.watermark ≡ state.now.library.watermark) }
        ensures adding { IfOk result
            (λ prepared. IsAdding state.now collection moment body.now prepared.planned.rows
            prepared.body) }
        ensures status { IfOk result
            (λ prepared. prepared.status
            ≡ record { id = status_id_of (next_number state.now.statuses); body = prepared.body }) }
        ensures err { IfErr result (λ refusal. (refusal ≡ Refused.NoMemory)
            ⊎ CannotAdd state.now collection moment body.now refusal) }
    {
        let posted = read_posted(alloc, body, moment)?;
        let Posted {
            objects,
            failures,
            failure_count,
        } = posted;
        let planned = planned_of(&state.library, collection, moment, objects)?;
        outcomes_have_rows();
        let number = state.statuses.next_number();
        let report = report_of(
            alloc,
            &state.library,
            &planned,
            number,
            moment,
            failures,
            failure_count,
        )?;
        let text = status_body(alloc, &report)?;
        let copy = Text::from_text(alloc, text.as_str())?;
        let status = state.statuses.prepare(copy)?;
        Ok(Prepared {
            planned,
            status,
            body: text,
        })
    }
}

/// Plans the addition of the objects.
fn planned_of(
    library: &Library,
    collection: u128,
    moment: u64,
    objects: Vec<Described>,
) -> Result<Planned, Refusal>
    requires { All IsSound objects.items }
    ensures watermark { IfOk result (λ planned. planned.watermark ≡ library.now.watermark) }
    ensures ok { IfOk result
        (λ planned. IsAddition library.now collection moment objects.items planned.outcomes
        planned.rows) }
    ensures err { IfErr result (λ refusal. (refusal ≡ Refused.NoMemory)
        ⊎ ((refusal ≡ Refused.Problem Trouble.DatesUsedUp)
        × UsesUpDates library.now collection objects.items)) }
{
    match library.plan_add(collection, moment, objects) {
        Ok(planned) => Ok(planned),
        Err(PlanRefusal::DatesUsedUp) => Err(Refusal::Problem(Problem::DatesUsedUp)),
        Err(PlanRefusal::NoMemory) => Err(Refusal::NoMemory),
    }
}
