ghost use Rattle.std.specs.Prelude.{◌≡◌};
ghost use Rattle.http_messages.specs.Statuses.{refusal_status, refusal_title};

use crate::Status;
use std::fmt;

/// Why the bytes of a connection are refused. The connection closes after a refusal.
#[derive(Clone, Copy, Debug, PartialEq, Eq, Hash)]
pub enum Refusal {
    /// The head does not match the grammar, lacks Host, or contradicts itself.
    BadRequest,
    /// A POST has no Content-Length.
    LengthRequired,
    /// The body is larger than the session allows.
    BodyTooLarge,
    /// The head does not end within `MAX_HEAD` bytes.
    HeadTooLarge,
    /// The body has a transfer coding.
    TransferCoding,
}

impl Refusal {
    /// The status of the error response.
    pub fn status(self) -> Status
        ensures { result ≡ refusal_status self }
    {
        match self {
            Refusal::BadRequest => Status::BadRequest,
            Refusal::LengthRequired => Status::LengthRequired,
            Refusal::BodyTooLarge => Status::PayloadTooLarge,
            Refusal::HeadTooLarge => Status::HeadTooLarge,
            Refusal::TransferCoding => Status::NotImplemented,
        }
    }

    /// The title in the error response.
    pub fn title(self) -> &'static str
        ensures { result.now ≡ refusal_title self }
    {
        match self {
            Refusal::BadRequest => "bad request",
            Refusal::LengthRequired => "length required",
            Refusal::BodyTooLarge => "body too large",
            Refusal::HeadTooLarge => "head too large",
            Refusal::TransferCoding => "transfer coding",
        }
    }
}

impl fmt::Display for Refusal {
    fn fmt<W: fmt::Write>(&self, f: &mut fmt::Formatter<W>) -> fmt::Result {
        write!(f, "{}", self.title())
    }
}
