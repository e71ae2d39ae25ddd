ghost use Rattle.std.specs.Prelude.{◌≡◌, ◌++◌, IfOk, codes};
ghost use Rattle.taxii_exchange.specs.Answers.{answer_to, methods_of};

use flow_values::{NoMemory, Text};
use http_messages::{Refusal, Status};
use std::alloc::Global;

/// The last microsecond of the year 9999: the latest date in a response.
pub const MAX_DATE: u64 = 253_402_300_799_999_999;

/// The methods that a resource allows.
#[derive(Clone, Copy, Debug, PartialEq, Eq, Hash)]
pub enum Allow {
    Get,
    GetPost,
    GetDelete,
}

impl Allow {
    /// The value of the Allow field.
    pub(crate) fn methods(self) -> &'static str
        ensures { result.now ≡ methods_of self }
    {
        match self {
            Allow::Get => "GET",
            Allow::GetPost => "GET, POST",
            Allow::GetDelete => "GET, DELETE",
        }
    }
}

/// A response, before it is written.
#[derive(Debug, Drop)]
pub struct Answer {
    pub status: Status,
    pub body: Option<Text>,
    /// When the first object of a page was added, in microseconds since 1970
    /// (`X-TAXII-Date-Added-First`).
    pub first: Option<u64>,
    /// When the last object of a page was added, in microseconds since 1970
    /// (`X-TAXII-Date-Added-Last`).
    pub last: Option<u64>,
    pub allow: Option<Allow>,
}

/// The error response to refused bytes.
pub fn refusal_answer(alloc: Global, refusal: Refusal) -> Result<Answer, NoMemory>
    ensures { IfOk result (λ answer. answer ≡ answer_to refusal) }
{
    let mut body = Text::from_text(alloc, "{\"title\":\"")?;
    body.push(refusal.title())?;
    body.push("\"}")?;
    Ok(Answer {
        status: refusal.status(),
        body: Some(body),
        first: None,
        last: None,
        allow: None,
    })
}
