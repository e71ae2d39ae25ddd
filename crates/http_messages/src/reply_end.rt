use crate::HeadRefusal;
use flow_values::{Fault, NoMemory};
use thiserror::Error;

/// Why no response was read.
#[derive(Clone, Copy, Debug, PartialEq, Eq, Hash, Error)]
pub enum ReplyEnd {
    /// A read failed; the link has counted it.
    #[error("the link failed")]
    Fault,
    /// The link's bytes end inside the response.
    #[error("the reply is cut")]
    Cut,
    /// The head of the response is refused.
    #[error("the response is refused: {0}")]
    Refused(HeadRefusal),
    /// Memory ran out.
    #[error("out of memory")]
    NoMemory,
}

impl From<Fault> for ReplyEnd {
    ghost use Rattle.std.specs.Prelude.{◌≡◌};
    ghost use Rattle.http_messages.specs.declared.reply_end.ReplyEnd.TheVariants as ReplyEnd;

    ghost from_gives = { λ _ end. end ≡ ReplyEnd.Fault };

    fn from(_: Fault) -> ReplyEnd {
        ReplyEnd::Fault
    }
}

impl From<NoMemory> for ReplyEnd {
    ghost use Rattle.std.specs.Prelude.{◌≡◌};
    ghost use Rattle.http_messages.specs.declared.reply_end.ReplyEnd.TheVariants as ReplyEnd;

    ghost from_gives = { λ _ end. end ≡ ReplyEnd.NoMemory };

    fn from(_: NoMemory) -> ReplyEnd {
        ReplyEnd::NoMemory
    }
}
