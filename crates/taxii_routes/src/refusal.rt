use crate::Param;
use flow_values::NoMemory;
use std::alloc::AllocError;
use thiserror::Error;

/// Why a query is refused: the fault of its first invalid parameter.
#[derive(Clone, Copy, Debug, PartialEq, Eq, Error)]
pub enum QueryRefusal {
    /// The value is malformed.
    #[error("bad value of {}", .name.name())]
    BadValue { name: Param },
    /// The parameter occurs twice.
    #[error("repeated {}", .name.name())]
    Repeated { name: Param },
    /// Memory ran out.
    #[error("out of memory")]
    NoMemory,
}

impl From<NoMemory> for QueryRefusal {
    ghost use Rattle.std.specs.Prelude.{◌≡◌};
    ghost use Rattle.taxii_routes.specs.declared.refusal.QueryRefusal.TheVariants as QueryRefusal;

    ghost from_gives = { λ _ refusal. refusal ≡ QueryRefusal.NoMemory };

    fn from(_error: NoMemory) -> QueryRefusal {
        QueryRefusal::NoMemory
    }
}

impl From<AllocError> for QueryRefusal {
    ghost use Rattle.std.specs.Prelude.{◌≡◌};
    ghost use Rattle.taxii_routes.specs.declared.refusal.QueryRefusal.TheVariants as QueryRefusal;

    ghost from_gives = { λ _ refusal. refusal ≡ QueryRefusal.NoMemory };

    fn from(_error: AllocError) -> QueryRefusal {
        QueryRefusal::NoMemory
    }
}
