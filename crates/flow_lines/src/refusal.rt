ghost use Rattle.std.specs.Prelude.{◌≡◌};
ghost use Rattle.flow_lines.specs.declared.refusal.LineRefusal.TheVariants.{NoMemory as OutOfMemory};

use flow_values::NoMemory;
use thiserror::Error;

/// The greatest length of a line, in bytes before its line feed.
pub const MAX_LINE: u64 = 8_388_608;

/// The greatest length of an input, in bytes.
pub const MAX_INPUT: u64 = 1_099_511_627_776;

/// Why no further line is given.
#[derive(Clone, Copy, Debug, PartialEq, Eq, Error)]
pub enum LineRefusal {
    /// The source failed, and counted the fault.
    #[error("the input failed")]
    Fault,
    /// Line `number` has more than `MAX_LINE` bytes before its line feed.
    #[error("line {number} has more than 8,388,608 bytes")]
    LineTooLong { number: u64 },
    /// Line `number`, with its line feed, ends past the first `MAX_INPUT` bytes of the input.
    #[error("the input has more than 1,099,511,627,776 bytes, at line {number}")]
    InputTooLong { number: u64 },
    /// Out of memory.
    #[error("out of memory")]
    NoMemory,
}

impl From<NoMemory> for LineRefusal {
    ghost from_gives = { λ _ refusal. refusal ≡ OutOfMemory };

    fn from(_error: NoMemory) -> LineRefusal {
        LineRefusal::NoMemory
    }
}
