use crate::{FetchEnd, ReplyRefusal};
use thiserror::Error;

/// Why the next page of a pull did not arrive.
#[derive(Clone, Copy, Debug, PartialEq, Eq, Hash, Error)]
pub enum PageEnd {
    /// The dial failed and counted it, or a read or write of its link failed, which the link
    /// counted.
    #[error("the link failed")]
    Fault,
    /// The link's bytes end inside the response.
    #[error("the reply is cut")]
    Cut,
    #[error("the reply is refused: {0}")]
    Refused(ReplyRefusal),
    /// The pull reached its maximum number of pages, and there are more.
    #[error("too many pages")]
    TooManyPages,
    #[error("out of memory")]
    NoMemory,
}

impl From<FetchEnd> for PageEnd {
    ghost use Rattle.std.specs.Prelude.{◌≡◌};
    ghost use Rattle.taxii_client.specs.ReplyRefusals.{for_fetch};

    ghost from_gives = { λ fetch end. end ≡ for_fetch fetch };

    fn from(end: FetchEnd) -> PageEnd {
        match end {
            FetchEnd::Fault => PageEnd::Fault,
            FetchEnd::Cut => PageEnd::Cut,
            FetchEnd::Refused(refusal) => PageEnd::Refused(refusal),
            FetchEnd::NoMemory => PageEnd::NoMemory,
        }
    }
}
