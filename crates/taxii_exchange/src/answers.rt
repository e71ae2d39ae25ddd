ghost use Rattle.std.specs.Prelude.{◌≡◌, None, Some, IfOk, map};
ghost use Rattle.std.specs.List.{last_or};
ghost use Rattle.taxii_rows.specs.StoreState.{dates_of};
ghost use Rattle.taxii_exchange.specs.AnswersToRequests as spec;

use crate::refusal::status_of_problem;
use crate::{Allow, Answer};
use flow_values::{NoMemory, Text};
use http_messages::{Method, Status};
use std::alloc::Global;
use taxii_bodies::{Problem, last_date, problem_body};
use taxii_rows::StoredRow;

/// A response with a status and a body.
pub fn body_answer(status: Status, body: Text) -> Answer
    ensures { result ≡ spec.body_answer status body }
{
    Answer {
        status,
        body: Some(body),
        first: None,
        last: None,
        allow: None,
    }
}

/// A response without a body, perhaps with an Allow field.
pub fn bare_answer(status: Status, allow: Option<Allow>) -> Answer
    ensures { result ≡ spec.bare_answer status allow }
{
    Answer {
        status,
        body: None,
        first: None,
        last: None,
        allow,
    }
}

/// The error response for a problem.
pub fn problem_answer(alloc: Global, problem: Problem) -> Result<Answer, NoMemory>
    ensures { IfOk result (λ answer. answer ≡ spec.problem_answer problem) }
{
    let body = problem_body(alloc, problem)?;
    Ok(body_answer(status_of_problem(problem), body))
}

/// The error response for a problem of a request with this method; a HEAD gets no body (RFC 9110,
/// section 9.3.2).
pub fn answer_to_problem(
    alloc: Global,
    method: Method,
    problem: Problem,
) -> Result<Answer, NoMemory>
    ensures { IfOk result (λ answer. answer ≡ spec.answer_to_problem method problem) }
{
    match method {
        Method::Head => Ok(bare_answer(status_of_problem(problem), None)),
        Method::Get | Method::Post | Method::Delete | Method::Other => {
            problem_answer(alloc, problem)
        }
    }
}

/// The response with a page of rows and its body.
pub fn page_answer(rows: &[&StoredRow], body: Text) -> Answer
    ensures { result ≡ spec.page_answer (map (λ row. row.now) rows.now) body }
{
    Answer {
        status: Status::Okay,
        body: Some(body),
        first: first_date(rows),
        last: last_date(rows),
        allow: None,
    }
}

fn first_date(rows: &[&StoredRow]) -> Option<u64>
    ensures { result ≡ spec.first_date_of (dates_of (map (λ row. row.now) rows.now)) }
{
    let row = rows.first()?;
    Some(row.date)
}
