ghost use Rattle.std.specs.Prelude.{◌≡◌};
ghost use Rattle.match_run.specs.inner.WatchEnds.{watch_end_of_read, end_of_see};

use crate::{InputRule, SeeEnd};
use match_input::ReadEnd;

/// How a run of a watcher ended.
#[derive(Debug, Drop)]
pub enum WatchEnd<S> {
    /// The whole input was read.
    Done,
    /// The line of this number is refused.
    Input { line: u64, rule: InputRule },
    /// The input failed, and counted the failure.
    ReadFault,
    /// The output failed, and counted the failure.
    WriteFault,
    /// The watcher stopped for its own reason.
    Stopped(S),
    /// Out of memory.
    NoMemory,
}

impl<S> From<ReadEnd> for WatchEnd<S> {
    ghost from_gives = { λ read end. end ≡ watch_end_of_read read };

    fn from(end: ReadEnd) -> WatchEnd<S> {
        match end {
            ReadEnd::Input { line, rule } => WatchEnd::Input { line, rule },
            ReadEnd::ReadFault => WatchEnd::ReadFault,
            ReadEnd::Ended | ReadEnd::NoMemory => WatchEnd::NoMemory,
        }
    }
}

impl<S> From<SeeEnd<S>> for WatchEnd<S> {
    ghost from_gives = { λ see end. end ≡ end_of_see see };

    fn from(end: SeeEnd<S>) -> WatchEnd<S> {
        match end {
            SeeEnd::Stopped(why) => WatchEnd::Stopped(why),
            SeeEnd::WriteFault => WatchEnd::WriteFault,
            SeeEnd::NoMemory => WatchEnd::NoMemory,
        }
    }
}
