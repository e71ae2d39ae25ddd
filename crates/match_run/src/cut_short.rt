ghost use Rattle.std.specs.Prelude.{◌≡◌};
ghost use Rattle.match_run.specs.declared.cut_short.CutShort.TheVariants as cut;

use flow_values::{Fault, NoMemory};

/// Why a text wasn't written completely.
#[derive(Debug, Drop)]
pub enum CutShort {
    /// The output failed, and counted the failure.
    WriteFault,
    /// Out of memory.
    NoMemory,
}

impl From<Fault> for CutShort {
    ghost from_gives = { λ _ short. short ≡ cut.WriteFault };

    fn from(_fault: Fault) -> CutShort {
        CutShort::WriteFault
    }
}

impl From<NoMemory> for CutShort {
    ghost from_gives = { λ _ short. short ≡ cut.NoMemory };

    fn from(_error: NoMemory) -> CutShort {
        CutShort::NoMemory
    }
}
