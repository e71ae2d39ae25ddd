ghost use Rattle.std.specs.Prelude.{◌≡◌, ◌≢◌, ◌≤◌, ◌+◌, Err, IfOk};
ghost use Rattle.flow_edges.specs.declared.source.TheConstants.{MAX_READ};
ghost use Rattle.flow_edges.specs.Faults.{Counted};
ghost use Rattle.flow_edges.specs.Flow.{TakesAtMost, IsAtEnd};
ghost use Rattle.flow_lines.specs.WholeInput.{IsWholeInput, IsTooLong};

use crate::read_buffer::ReadBuffer;
use flow_edges::Source;
use flow_values::{Items, NoMemory};
use std::alloc::Global;
use thiserror::Error;

/// The greatest length of an input for `read_whole`, in bytes.
pub const MAX_WHOLE_INPUT: usize = 67_108_864;

/// Why an input was not read whole.
#[derive(Clone, Copy, Debug, PartialEq, Eq, Error)]
pub enum InputRefusal {
    /// The input failed, and counted the fault.
    #[error("the input failed")]
    Fault,
    /// The input has more than `MAX_WHOLE_INPUT` bytes.
    #[error("the input has more than 67,108,864 bytes")]
    TooLong,
    /// Out of memory.
    #[error("out of memory")]
    NoMemory,
}

impl From<NoMemory> for InputRefusal {
    ghost use Rattle.flow_lines.specs.declared.whole_input.InputRefusal.TheVariants as InputRefusal;

    ghost from_gives = { λ _ refusal. refusal ≡ InputRefusal.NoMemory };

    fn from(_error: NoMemory) -> InputRefusal {
        InputRefusal::NoMemory
    }
}

/// Reads an input of at most `MAX_WHOLE_INPUT` bytes to its end. Whatever the outcome, it consumes
/// at most these and one more read.
pub fn read_whole<S: Source>(alloc: Global, source: &mut S) -> Result<Items<u8>, InputRefusal>
    ensures whole { IfOk result (λ bytes. IsWholeInput bytes (S.left source.old)
        (S.left source.new)) }
    ensures to_end { IfOk result (λ _. IsAtEnd (S.began source.new)) }
    ensures too_long { result ≡ Err InputRefusal.TooLong → IsTooLong (S.left source.old) }
    ensures taken { TakesAtMost (MAX_WHOLE_INPUT + MAX_READ) (S.left source.old)
        (S.left source.new) }
    ensures causes { Counted (result ≡ Err InputRefusal.Fault) (S.faults source.old)
        (S.faults source.new) }
{
    let mut read_buffer = ReadBuffer::new(alloc)?;
    let mut bytes = Vec::new(alloc);
    // Each iteration reads at least one byte, so the loop ends within its bound.
    for _turn in 0..=MAX_WHOLE_INPUT {
        let permit = read_buffer.take_all(&mut bytes)?;
        let count = match read_buffer.fill(permit, source) {
            Ok(0) => return Ok(Items::from_vec(bytes)),
            Ok(count) => count,
            Err(_) => return Err(InputRefusal::Fault),
        };
        if count > MAX_WHOLE_INPUT - bytes.len() {
            return Err(InputRefusal::TooLong);
        }
    }
    unreachable!()
}
