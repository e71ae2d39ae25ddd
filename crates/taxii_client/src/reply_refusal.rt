ghost use Rattle.std.specs.Prelude.{◌≡◌};

use http_messages::HeadRefusal;
use std::error::Error;
use std::fmt;

/// Why a response is refused.
#[derive(Clone, Copy, Debug, PartialEq, Eq, Hash)]
pub enum ReplyRefusal {
    /// The head does not match the grammar, or is too long.
    BadHead,
    /// The status is not 200.
    Status { code: u16 },
    /// The body has a transfer coding.
    Coding,
    /// The head has no Content-Length, or several that differ.
    NoLength,
    /// The body is too large.
    TooLarge,
    /// The body is no page.
    NotEnvelope,
}

impl From<HeadRefusal> for ReplyRefusal {
    ghost use Rattle.std.specs.Prelude.{◌≡◌};
    ghost use Rattle.taxii_client.specs.ReplyRefusals.{for_head};

    ghost from_gives = { λ head refusal. refusal ≡ for_head head };

    fn from(head: HeadRefusal) -> ReplyRefusal {
        match head {
            HeadRefusal::BadHead => ReplyRefusal::BadHead,
            HeadRefusal::Status { code } => ReplyRefusal::Status { code },
            HeadRefusal::Coding => ReplyRefusal::Coding,
            HeadRefusal::NoLength => ReplyRefusal::NoLength,
            HeadRefusal::TooLarge => ReplyRefusal::TooLarge,
        }
    }
}

impl fmt::Display for ReplyRefusal {
    ghost use Rattle.std.specs.Prelude.{Some};
    ghost use Rattle.taxii_client.specs.ReplyRefusals.{reply_refusal_text};

    ghost output = { λ refusal. Some (reply_refusal_text refusal) };

    fn fmt<W: fmt::Write>(&self, f: &mut fmt::Formatter<W>) -> fmt::Result {
        match self {
            ReplyRefusal::BadHead => write!(f, "BadHead"),
            ReplyRefusal::Status { code } => write!(f, "Status {code}"),
            ReplyRefusal::Coding => write!(f, "Coding"),
            ReplyRefusal::NoLength => write!(f, "NoLength"),
            ReplyRefusal::TooLarge => write!(f, "TooLarge"),
            ReplyRefusal::NotEnvelope => write!(f, "NotEnvelope"),
        }
    }
}

impl Error for ReplyRefusal {}
