ghost use Rattle.std.specs.Prelude.{◌≡◌, ◌⊎◌, [], IfOk, IsOk, OnErr, option_map, unwrap_or};
ghost use Rattle.std.specs.Prelude.{IsOkAnd};
ghost use Rattle.flow_edges.specs.Faults.{Counted};
ghost use Rattle.http_messages.specs.declared.status.Status.TheVariants as Code;
ghost use Rattle.taxii_exchange.specs.Answers.{HasDates};
ghost use Rattle.taxii_bodies.specs.declared.problem.Problem.TheVariants as Trouble;
ghost use Rattle.taxii_exchange.specs.AnswersToRequests as spec;
ghost use Rattle.taxii_exchange.specs.declared.refusal.Refusal.TheVariants as Refused;
ghost use Rattle.taxii_store.specs.Agreement.{Agrees, without_rows};
ghost use Rattle.taxii_service.specs.Step.{IsAnswerTo, RouteStep, Step, FailsToKeep};
ghost use Rattle.taxii_service.specs.inner.Performing.{RouteChanges};

use crate::State;
use crate::outcome::outcome;
use flow_values::NoMemory;
use http_messages::{Method, Request, Status};
use std::alloc::Global;
use taxii_bodies::Problem;
use taxii_exchange::{Answer, Config, Refusal, answer_to_problem, bare_answer};
use taxii_routes::{Route, split_target};
use taxii_rows::Keeper;
use taxii_store::page_laws::rows_of_pages;

/// Responds to a request that arrived at a moment (microseconds since 1970). POST adds objects and
/// keeps a status, DELETE removes rows, and nothing else changes the state. If the keeper failed,
/// the response is 500 and nothing has changed. `NoMemory` means that nothing has changed and the
/// keeper did not fail. The dates of a response are before the year 10000.
pub fn respond<K: Keeper>(
    config: &Config,
    state: &mut State,
    keeper: &mut K,
    moment: u64,
    request: &Request,
) -> Result<Answer, NoMemory>
    requires agrees { Agrees (K.kept keeper.old) state.old.library }
    ensures agrees { Agrees (K.kept keeper.new) state.new.library }
    ensures keeper { without_rows (K.kept keeper.new) ≡ without_rows (K.kept keeper.old) }
    ensures ok { IfOk result
        (λ answer. Step config.now state.old moment request.now answer state.new
        ⊎ FailsToKeep config.now state.old moment request.now answer state.new) }
    ensures err { OnErr result (state.new ≡ state.old) }
    // a 500 is sent exactly if the keeper failed, and that fault is counted
    ensures causes { Counted (IsOkAnd result (λ answer. answer.status ≡ Code.InternalServerError))
        (K.faults keeper.old) (K.faults keeper.new) }
    ensures dates { IfOk result HasDates }
{
    let (path, query) = split_target(request.target.as_str());
    match config.routes.route(path)? {
        Route::None => answer_to_problem(config.alloc, request.method, Problem::NotFound),
        route => {
            let query = query_text(query);
            respond_at(config, state, keeper, moment, request, &route, query)
        }
    }
}

/// The query string, or the empty one if there is none.
fn query_text(query: Option<&str>) -> &str
    ensures { result.now ≡ unwrap_or (option_map (λ text. text.now) query.entry) [] }
{
    match query {
        Some(text) => text,
        None => "",
    }
}

/// Responds to a request to the resource of a route.
fn respond_at<K: Keeper>(
    config: &Config,
    state: &mut State,
    keeper: &mut K,
    moment: u64,
    request: &Request,
    route: &Route,
    query: &str,
) -> Result<Answer, NoMemory>
    requires agrees { Agrees (K.kept keeper.old) state.old.library }
    ensures agrees { Agrees (K.kept keeper.new) state.new.library }
    ensures keeper { without_rows (K.kept keeper.new) ≡ without_rows (K.kept keeper.old) }
    ensures ok { IfOk result
        (λ answer. RouteStep config.now state.old moment request.now route.now query.now
        answer state.new
        ⊎ ((answer ≡ spec.answer_to_problem request.now.method Trouble.StoreFault)
        × (state.new ≡ state.old)
        × RouteChanges config.now state.old moment request.now route.now query.now)) }
    ensures err { OnErr result (state.new ≡ state.old) }
    ensures causes { Counted (IsOkAnd result (λ answer. answer.status ≡ Code.InternalServerError))
        (K.faults keeper.old) (K.faults keeper.new) }
    ensures dates { IfOk result HasDates }
{
    rows_of_pages();
    state.library.rows();
    // The 500 response is allocated before the keeper is called. So a change that the keeper
    // refused is never reported as out of memory.
    let store_fault = answer_to_problem(config.alloc, request.method, Problem::StoreFault)?;
    match outcome(config, state, keeper, moment, request, route, query) {
        Ok(answer) => Ok(answer),
        Err(refusal) => answer_to(config.alloc, request.method, refusal, store_fault),
    }
}

/// The error response to a refusal. The one for a keeper fault exists already.
fn answer_to(
    alloc: Global,
    method: Method,
    refusal: Refusal,
    store_fault: Answer,
) -> Result<Answer, NoMemory>
    requires { store_fault ≡ spec.answer_to_problem method Trouble.StoreFault }
    ensures ok { IfOk result (IsAnswerTo method refusal) }
    ensures there { refusal ≡ Refused.Problem Trouble.StoreFault → IsOk result }
{
    match refusal {
        Refusal::NotAllowed(allow) => Ok(bare_answer(Status::MethodNotAllowed, Some(allow))),
        Refusal::Problem(Problem::StoreFault) => Ok(store_fault),
        Refusal::Problem(problem) => answer_to_problem(alloc, method, problem),
        Refusal::NoMemory => Err(NoMemory),
    }
}
