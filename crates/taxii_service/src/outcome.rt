ghost use Rattle.std.specs.Prelude.{◌≡◌, ◌⊎◌, IfOk, IfErr, OnErr, Err};
ghost use Rattle.flow_edges.specs.Faults.{Counted};
ghost use Rattle.taxii_bodies.specs.declared.problem.Problem.TheVariants as Trouble;
ghost use Rattle.taxii_exchange.specs.declared.refusal.Refusal.TheVariants as Refused;
ghost use Rattle.taxii_store.specs.Agreement.{Agrees, without_rows};
ghost use Rattle.taxii_service.specs.Step.{IsRefusedResource, IsDone};
ghost use Rattle.taxii_service.specs.inner.Performing.{RouteChanges};

use crate::operation::Operation;
use crate::perform::perform;
use crate::{Resource, State};
use http_messages::Request;
use taxii_bodies::Problem;
use taxii_exchange::{Answer, Config, Refusal, check};
use taxii_routes::Route;
use taxii_rows::Keeper;

/// Checks a request to the resource of a route, and performs it.
pub(crate) fn outcome<K: Keeper>(
    config: &Config,
    state: &mut State,
    keeper: &mut K,
    moment: u64,
    request: &Request,
    route: &Route,
    query: &str,
) -> Result<Answer, Refusal>
    requires agrees { Agrees (K.kept keeper.old) state.old.library }
    ensures agrees { Agrees (K.kept keeper.new) state.new.library }
    ensures keeper { without_rows (K.kept keeper.new) ≡ without_rows (K.kept keeper.old) }
    ensures ok { IfOk result
        (λ answer. IsDone config.now state.old moment request.now route.now query.now
        answer state.new) }
    // the reason holds: a check refused the request, or the keeper failed on a change
    ensures err { IfErr result (λ refusal. (refusal ≡ Refused.NoMemory)
        ⊎ (IsRefusedResource config.now state.old moment request.now route.now query.now refusal
        ⊎ ((refusal ≡ Refused.Problem Trouble.StoreFault)
        × RouteChanges config.now state.old moment request.now route.now query.now))) }
    ensures unchanged { OnErr result (state.new ≡ state.old) }
    // the keeper counts a fault exactly if the result is `StoreFault`
    ensures causes { Counted (result ≡ Err (Refused.Problem Trouble.StoreFault))
        (K.faults keeper.old) (K.faults keeper.new) }
{
    let Some(resource) = Resource::find(config, state, route) else {
        return Err(Refusal::Problem(Problem::NotFound));
    };
    let query = check(
        config.alloc,
        request,
        query,
        resource.allow(),
        resource.rights(),
    )?;
    let operation = Operation::of(request.method, resource);
    let body = request.body.as_slice();
    perform(config, state, keeper, moment, body, query, operation)
}
