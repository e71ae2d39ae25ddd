ghost use Rattle.std.specs.Prelude.{◌≡◌};
ghost use Rattle.match_run.specs.declared.match_end.MatchEnd.TheVariants.{NoMemory as OutOfMemory};
ghost use Rattle.match_run.specs.inner.MatchEnds.{match_end_of_read};

use flow_values::NoMemory;
use match_input::{InputRule, ReadEnd};

/// How a run over a log ended.
#[derive(Debug, Drop)]
pub enum MatchEnd {
    /// The whole input was read and all was written: how many observations and bindings there were,
    /// and the greatest number of the last binding, or 0.
    Done {
        observations: u64,
        bindings: u128,
        last: u64,
    },
    /// The line of this number is refused.
    Input {
        line: u64,
        rule: InputRule,
    },
    /// The input failed, and counted the failure.
    ReadFault,
    /// The output failed, and counted the failure.
    WriteFault,
    /// After the observation of this number the matcher would retain more than its limit.
    OverLimit {
        number: u64,
        retained_limit: u64,
    },
    /// Out of memory.
    NoMemory,
}

impl From<NoMemory> for MatchEnd {
    ghost from_gives = { λ _ end. end ≡ OutOfMemory };

    fn from(_error: NoMemory) -> MatchEnd {
        MatchEnd::NoMemory
    }
}

impl From<ReadEnd> for MatchEnd {
    ghost from_gives = { λ read end. end ≡ match_end_of_read read };

    fn from(end: ReadEnd) -> MatchEnd {
        match end {
            ReadEnd::Input { line, rule } => MatchEnd::Input { line, rule },
            ReadEnd::ReadFault => MatchEnd::ReadFault,
            ReadEnd::Ended | ReadEnd::NoMemory => MatchEnd::NoMemory,
        }
    }
}
