ghost use Rattle.std.specs.Prelude.{◌≡◌};
ghost use Rattle.taxii_exchange.specs.AnswersToRequests.{problem_status};

use crate::Allow;
use flow_values::NoMemory;
use http_messages::Status;
use taxii_bodies::Problem;

/// Why a request is refused.
#[derive(Clone, Copy, Debug, PartialEq, Eq)]
pub enum Refusal {
    /// The resource does not allow the method, only these.
    NotAllowed(Allow),
    /// The response is an error message.
    Problem(Problem),
    /// Memory ran out.
    NoMemory,
}

impl From<NoMemory> for Refusal {
    ghost use Rattle.std.specs.Prelude.{◌≡◌};
    ghost use Rattle.taxii_exchange.specs.declared.refusal.Refusal.TheVariants as Refusal;

    ghost from_gives = { λ _ refusal. refusal ≡ Refusal.NoMemory };

    fn from(_error: NoMemory) -> Refusal {
        Refusal::NoMemory
    }
}

/// The status of the error response for a problem.
pub(crate) fn status_of_problem(problem: Problem) -> Status
    ensures { result ≡ problem_status problem }
{
    match problem {
        Problem::BadValue(_) => Status::BadRequest,
        Problem::Repeated(_) => Status::BadRequest,
        Problem::Forbidden => Status::Forbidden,
        Problem::NotFound => Status::NotFound,
        Problem::NotAcceptable => Status::NotAcceptable,
        Problem::UnsupportedMediaType => Status::UnsupportedMediaType,
        Problem::NotJson => Status::UnprocessableEntity,
        Problem::NotList => Status::UnprocessableEntity,
        Problem::StoreFault => Status::InternalServerError,
        Problem::DatesUsedUp => Status::ServiceUnavailable,
    }
}
