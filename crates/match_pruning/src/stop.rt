ghost use Rattle.std.specs.Prelude.{◌≡◌};
ghost use Rattle.match_pruning.specs.declared.stop.Stop.TheVariants as stop;

use flow_values::NoMemory;
use std::alloc::{AllocError, AllocFailed};

/// Why a row isn't finished.
#[derive(Clone, Copy, Debug)]
pub enum Stop {
    /// The matcher would hold more partial matches than its limit.
    OverLimit,
    /// Out of memory.
    OutOfMemory,
}

impl From<NoMemory> for Stop {
    ghost from_gives = { λ _ made. made ≡ stop.OutOfMemory };

    fn from(_error: NoMemory) -> Stop {
        Stop::OutOfMemory
    }
}

impl From<AllocError> for Stop {
    ghost from_gives = { λ _ made. made ≡ stop.OutOfMemory };

    fn from(_error: AllocError) -> Stop {
        Stop::OutOfMemory
    }
}

impl<T: Drop> From<AllocFailed<T>> for Stop {
    ghost from_gives = { λ _ made. made ≡ stop.OutOfMemory };

    fn from(_failed: AllocFailed<T>) -> Stop {
        Stop::OutOfMemory
    }
}
