ghost use Rattle.std.specs.Prelude.{◌≡◌};
ghost use Rattle.match_run.specs.declared.see_end.SeeEnd.TheVariants as see;
ghost use Rattle.match_run.specs.inner.WatchEnds.{end_of_cut};

use crate::CutShort;
use flow_values::{Fault, NoMemory};

/// Why a watcher stops.
#[derive(Debug, Drop)]
pub enum SeeEnd<S> {
    /// It stops for its own reason.
    Stopped(S),
    /// The output failed, and counted the failure.
    WriteFault,
    /// Out of memory.
    NoMemory,
}

impl<S> From<Fault> for SeeEnd<S> {
    ghost from_gives = { λ _ end. end ≡ see.WriteFault };

    fn from(_fault: Fault) -> SeeEnd<S> {
        SeeEnd::WriteFault
    }
}

impl<S> From<NoMemory> for SeeEnd<S> {
    ghost from_gives = { λ _ end. end ≡ see.NoMemory };

    fn from(_error: NoMemory) -> SeeEnd<S> {
        SeeEnd::NoMemory
    }
}

impl<S> From<CutShort> for SeeEnd<S> {
    ghost from_gives = { λ short end. end ≡ end_of_cut short };

    fn from(short: CutShort) -> SeeEnd<S> {
        match short {
            CutShort::WriteFault => SeeEnd::WriteFault,
            CutShort::NoMemory => SeeEnd::NoMemory,
        }
    }
}
