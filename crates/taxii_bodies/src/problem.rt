ghost use Rattle.std.specs.Prelude.{◌≡◌, ◌++◌, IfOk};
ghost use Rattle.serde_json.specs.Written.{compact_text};
ghost use Rattle.taxii_routes.specs.Param.{param_name};
ghost use Rattle.taxii_bodies.specs.Title.{title_data};
ghost use Rattle.taxii_bodies.specs.Problem.{problem_title};

use crate::title_body;
use flow_values::{NoMemory, Text};
use std::alloc::Global;
use taxii_routes::Param;

/// Why a request gets an error message (section 3.6.1).
#[derive(Clone, Copy, Debug, PartialEq, Eq)]
pub enum Problem {
    /// A query parameter is malformed.
    BadValue(Param),
    /// A query parameter occurs twice.
    Repeated(Param),
    /// The collection does not allow it.
    Forbidden,
    /// The resource does not exist.
    NotFound,
    /// The client accepts none of the server's media types.
    NotAcceptable,
    /// The request body has another media type.
    UnsupportedMediaType,
    /// The request body is no JSON.
    NotJson,
    /// The request body has no list of objects.
    NotList,
    /// The store cannot be read or written.
    StoreFault,
    /// No date is left for new rows.
    DatesUsedUp,
}

impl Problem {
    /// The title of the error message.
    pub fn title(self, alloc: Global) -> Result<Text, NoMemory>
        ensures { IfOk result (λ title. title ≡ problem_title self) }
    {
        match self {
            Problem::BadValue(param) => title_with(alloc, "bad value of ", param),
            Problem::Repeated(param) => title_with(alloc, "repeated ", param),
            Problem::Forbidden => Text::from_text(alloc, "forbidden"),
            Problem::NotFound => Text::from_text(alloc, "not found"),
            Problem::NotAcceptable => Text::from_text(alloc, "not acceptable"),
            Problem::UnsupportedMediaType => Text::from_text(alloc, "unsupported media type"),
            Problem::NotJson => Text::from_text(alloc, "unprocessable: NotJson"),
            Problem::NotList => Text::from_text(alloc, "unprocessable: NotList"),
            Problem::StoreFault => Text::from_text(alloc, "store fault"),
            Problem::DatesUsedUp => Text::from_text(alloc, "date range is used up"),
        }
    }
}

/// A title that ends with the parameter's name.
fn title_with(alloc: Global, prefix: &str, param: Param) -> Result<Text, NoMemory>
    ensures { IfOk result (λ title. title ≡ prefix.now ++ param_name param) }
{
    let mut title = Text::from_text(alloc, prefix)?;
    title.push(param.name())?;
    Ok(title)
}

/// The error message of a problem.
pub fn problem_body(alloc: Global, problem: Problem) -> Result<Text, NoMemory>
    ensures { IfOk result (λ text. text ≡ compact_text (title_data (problem_title problem))) }
{
    let title = problem.title(alloc)?;
    title_body(alloc, title.as_str())
}
