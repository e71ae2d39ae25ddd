ghost use Rattle.std.specs.Prelude.{◌≡◌};
ghost use Rattle.alert_window.specs.declared.refusal.WatchRefusal.TheVariants as refused;

use flow_values::NoMemory;
use stix_times::Instant;
use thiserror::Error;

/// Why a watch refuses a row. The watch is unchanged then.
#[derive(Clone, Copy, Debug, Error)]
pub enum WatchRefusal {
    /// It ends earlier than the row before it.
    #[error("the row ends earlier than the one before")]
    OutOfOrder { last: Instant, now: Instant },
    /// Out of memory.
    #[error("out of memory")]
    NoMemory,
}

impl From<NoMemory> for WatchRefusal {
    ghost from_gives = { λ _ refusal. refusal ≡ refused.NoMemory };

    fn from(_error: NoMemory) -> WatchRefusal {
        WatchRefusal::NoMemory
    }
}
