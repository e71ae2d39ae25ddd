use crate::ReplyRefusal;
use flow_values::{Fault, NoMemory};
use http_messages::ReplyEnd;
use thiserror::Error;

/// Why a page could not be fetched over a link.
#[derive(Clone, Copy, Debug, PartialEq, Eq, Hash, Error)]
pub enum FetchEnd {
    /// A read or a write failed; the link has counted it.
    #[error("the link failed")]
    Fault,
    /// The link's bytes end inside the response.
    #[error("the reply is cut")]
    Cut,
    #[error("the reply is refused: {0}")]
    Refused(ReplyRefusal),
    #[error("out of memory")]
    NoMemory,
}

impl From<Fault> for FetchEnd {
    ghost use Rattle.std.specs.Prelude.{◌≡◌};
    ghost use Rattle.taxii_client.specs.declared.fetch_end.FetchEnd.TheVariants as FetchEnd;

    ghost from_gives = { λ _ end. end ≡ FetchEnd.Fault };

    fn from(_: Fault) -> FetchEnd {
        FetchEnd::Fault
    }
}

impl From<NoMemory> for FetchEnd {
    ghost use Rattle.std.specs.Prelude.{◌≡◌};
    ghost use Rattle.taxii_client.specs.declared.fetch_end.FetchEnd.TheVariants as FetchEnd;

    ghost from_gives = { λ _ end. end ≡ FetchEnd.NoMemory };

    fn from(_: NoMemory) -> FetchEnd {
        FetchEnd::NoMemory
    }
}

impl From<ReplyEnd> for FetchEnd {
    ghost use Rattle.std.specs.Prelude.{◌≡◌};
    ghost use Rattle.taxii_client.specs.ReplyRefusals.{for_reply};

    ghost from_gives = { λ reply end. end ≡ for_reply reply };

    fn from(end: ReplyEnd) -> FetchEnd {
        match end {
            ReplyEnd::Fault => FetchEnd::Fault,
            ReplyEnd::Cut => FetchEnd::Cut,
            ReplyEnd::Refused(head) => FetchEnd::Refused(ReplyRefusal::from(head)),
            ReplyEnd::NoMemory => FetchEnd::NoMemory,
        }
    }
}
