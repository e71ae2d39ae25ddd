ghost use Rattle.std.specs.Prelude.{◌≡◌};
ghost use Rattle.match_input.specs.declared.read_end.ReadEnd.TheVariants.{NoMemory as OutOfMemory};

use crate::InputRule;
use flow_values::NoMemory;

/// Why there is no next bundle.
#[derive(Debug, Drop)]
pub enum ReadEnd {
    /// The line of this number is refused.
    Input { line: u64, rule: InputRule },
    /// The source failed, and counted the failure.
    ReadFault,
    /// An earlier call returned a `ReadEnd`.
    Ended,
    /// Out of memory.
    NoMemory,
}

impl From<NoMemory> for ReadEnd {
    ghost from_gives = { λ _ end. end ≡ OutOfMemory };

    fn from(_error: NoMemory) -> ReadEnd {
        ReadEnd::NoMemory
    }
}
