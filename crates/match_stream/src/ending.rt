ghost use Rattle.std.specs.Prelude.{◌≡◌};

use stix_times::Instant;
use thiserror::Error;

/// Why a matcher has ended. A matcher that ended answers nothing more.
#[derive(Clone, Copy, Debug, Error)]
pub enum Ending {
    /// After the row of this number the matcher would retain more partial matches, with the
    /// bindings that end there, than its limit.
    #[error("more than {retained_limit} are live after row {number}")]
    OverLimit { number: u64, retained_limit: u64 },
    /// A row ended earlier than the row before it.
    #[error("the row ends earlier than the one before")]
    OutOfOrder { last: Instant, now: Instant },
    /// Out of memory.
    #[error("out of memory")]
    NoMemory,
}

/// Why a row has no answer.
#[derive(Clone, Copy, Debug, Error)]
pub enum MatchRefusal {
    /// The matcher ended at this row.
    #[error(transparent)]
    Stopped(Ending),
    /// The matcher had ended before.
    #[error("the matcher had ended: {0}")]
    Ended(Ending),
}

impl Ending {
    /// A copy. The borrow checker allows no `Copy` out of a borrowed part of another value here.
    pub(crate) fn copied(&self) -> Ending
        ensures { result ≡ self.now }
    {
        match self {
            Ending::OverLimit {
                number,
                retained_limit,
            } => Ending::OverLimit {
                number: *number,
                retained_limit: *retained_limit,
            },
            Ending::OutOfOrder { last, now } => Ending::OutOfOrder {
                last: *last,
                now: *now,
            },
            Ending::NoMemory => Ending::NoMemory,
        }
    }
}
