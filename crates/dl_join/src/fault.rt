use dl_terms::NoMemory;
use std::alloc::{AllocError, AllocFailed};

/// Why a join or a union gives no tuples.
#[derive(Clone, Copy, PartialEq, Eq)]
pub enum JoinFault {
    /// There are more distinct tuples than the limit.
    TooMany,
    /// Want of memory.
    NoMemory,
}

impl From<AllocError> for JoinFault {
    ghost use Rattle.std.specs.Prelude.{◌≡◌};
    ghost use Rattle.dl_join.specs.declared.fault.JoinFault.TheVariants.{NoMemory};

    ghost from_gives = { λ _ fault. fault ≡ NoMemory };

    fn from(_refused: AllocError) -> JoinFault {
        JoinFault::NoMemory
    }
}

impl<T: Drop> From<AllocFailed<T>> for JoinFault {
    ghost use Rattle.std.specs.Prelude.{◌≡◌};
    ghost use Rattle.dl_join.specs.declared.fault.JoinFault.TheVariants.{NoMemory};

    ghost from_gives = { λ _ fault. fault ≡ NoMemory };

    fn from(_refused: AllocFailed<T>) -> JoinFault {
        JoinFault::NoMemory
    }
}

impl From<NoMemory> for JoinFault {
    ghost use Rattle.std.specs.Prelude.{◌≡◌};
    ghost use Rattle.dl_join.specs.declared.fault.JoinFault.TheVariants.{NoMemory};

    ghost from_gives = { λ _ fault. fault ≡ NoMemory };

    fn from(_refused: NoMemory) -> JoinFault {
        JoinFault::NoMemory
    }
}
