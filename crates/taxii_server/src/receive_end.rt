use flow_values::{Fault, NoMemory};
use http_messages::Refusal;

/// Why a link gives no further request.
#[derive(Debug)]
pub(crate) enum ReceiveEnd {
    /// The client sends no more.
    AtEnd,
    /// The bytes are refused.
    Refused(Refusal),
    NoMemory,
    /// A read failed.
    Failed,
}

impl From<NoMemory> for ReceiveEnd {
    ghost use Rattle.std.specs.Prelude.{◌≡◌};
    ghost use Rattle.taxii_server.specs.declared.receive_end.ReceiveEnd.TheVariants as ReceiveEnd;

    ghost from_gives = { λ _ receive_end. receive_end ≡ ReceiveEnd.NoMemory };

    fn from(_: NoMemory) -> ReceiveEnd {
        ReceiveEnd::NoMemory
    }
}

impl From<Fault> for ReceiveEnd {
    ghost use Rattle.std.specs.Prelude.{◌≡◌};
    ghost use Rattle.taxii_server.specs.declared.receive_end.ReceiveEnd.TheVariants as ReceiveEnd;

    ghost from_gives = { λ _ receive_end. receive_end ≡ ReceiveEnd.Failed };

    fn from(_: Fault) -> ReceiveEnd {
        ReceiveEnd::Failed
    }
}
