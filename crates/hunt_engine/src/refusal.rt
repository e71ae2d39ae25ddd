use flow_values::NoMemory;
use thiserror::Error;

/// Why a row has no answer. The engine has then ended.
#[derive(Clone, Copy, Debug, PartialEq, Eq, Error)]
pub enum EngineRefusal {
    /// After the row of this number a pattern would retain more than the limit: the first such
    /// pattern, by its index in the hunted list.
    #[error("more than {retained_limit} are live of pattern {hunted} after row {number}")]
    OverLimit {
        hunted: u32,
        number: u64,
        retained_limit: u64,
    },
    /// The engine had ended before.
    #[error("the engine has ended")]
    Ended,
    /// Out of memory.
    #[error("out of memory")]
    NoMemory,
}

impl From<NoMemory> for EngineRefusal {
    ghost use Rattle.std.specs.Prelude.{◌≡◌};
    ghost use Rattle.hunt_engine.specs.declared.refusal.EngineRefusal.TheVariants as EngineRefusal;

    ghost from_gives = { λ _ refusal. refusal ≡ EngineRefusal.NoMemory };

    fn from(_error: NoMemory) -> EngineRefusal {
        EngineRefusal::NoMemory
    }
}

/// Why one pattern has no answer to a row.
#[derive(Clone, Copy, Debug)]
pub(crate) enum LazyMatcherRefusal {
    /// After the row it would retain more than the limit.
    OverLimit,
    /// Out of memory.
    NoMemory,
}

impl From<NoMemory> for LazyMatcherRefusal {
    ghost use Rattle.std.specs.Prelude.{◌≡◌};
    ghost use Rattle.hunt_engine.specs.declared.refusal.LazyMatcherRefusal.TheVariants as LazyMatcherRefusal;

    ghost from_gives = { λ _ refusal. refusal ≡ LazyMatcherRefusal.NoMemory };

    fn from(_error: NoMemory) -> LazyMatcherRefusal {
        LazyMatcherRefusal::NoMemory
    }
}
