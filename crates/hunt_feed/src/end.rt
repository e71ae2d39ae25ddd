ghost use Rattle.std.specs.Prelude.{◌≡◌};
ghost use Rattle.hunt_feed.specs.declared.end.FeedEnd.TheVariants.{NoMemory as OutOfMemory};
ghost use Rattle.hunt_feed.specs.inner.Ends.{feed_end};

use crate::FeedRule;
use flow_lines::LineRefusal;
use flow_values::NoMemory;

/// Why a feed isn't read to its end.
#[derive(Debug, Drop)]
pub enum FeedEnd {
    /// The line of this number is refused.
    Refused { line: u64, rule: FeedRule },
    /// The source failed, and counted the failure.
    Fault,
    /// Out of memory.
    NoMemory,
}

impl From<NoMemory> for FeedEnd {
    ghost from_gives = { λ _ end. end ≡ OutOfMemory };

    fn from(_error: NoMemory) -> FeedEnd {
        FeedEnd::NoMemory
    }
}

impl From<LineRefusal> for FeedEnd {
    ghost from_gives = { λ refusal end. end ≡ feed_end refusal };

    fn from(refusal: LineRefusal) -> FeedEnd {
        match refusal {
            LineRefusal::Fault => FeedEnd::Fault,
            LineRefusal::LineTooLong { number } => FeedEnd::Refused {
                line: number,
                rule: FeedRule::LineTooLong,
            },
            LineRefusal::InputTooLong { number } => FeedEnd::Refused {
                line: number,
                rule: FeedRule::InputTooLong,
            },
            LineRefusal::NoMemory => FeedEnd::NoMemory,
        }
    }
}
