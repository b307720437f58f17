use dl_terms::NoMemory;
use std::alloc::{AllocError, AllocFailed};
use thiserror::Error;

/// Why a text gives no query. Offsets `at` are those of the first bytes of tokens, from 0; head places are counted
/// from 1.
#[derive(Clone, Copy, Debug, PartialEq, Eq, Error)]
pub enum QueryFault {
    /// No token begins there, or the token fits no rule of the grammar there.
    #[error("byte {at}: syntax")]
    Syntax {
        at: usize,
    },
    /// A name of one of the reserved namespaces where none may stand, or the comma behind the first term of
    /// `owl:Nothing`.
    #[error("byte {at}: reserved name")]
    Reserved {
        at: usize,
    },
    /// The name set is full and lacks this name.
    #[error("byte {at}: too many names")]
    TooManyNames {
        at: usize,
    },
    /// The first place of the head whose variable isn't in the body.
    #[error("head place {place} not in the body")]
    Unsafe {
        place: u64,
    },
    /// There are over 16 atoms, 8 existential variables or 16 head places: so many there are.
    #[error("{atoms} atoms, {existential} existential variables, {head} head places")]
    TooLarge {
        atoms: u64,
        existential: u64,
        head: u64,
    },
    /// Memory was refused.
    #[error("no memory")]
    NoMemory,
}

impl From<AllocError> for QueryFault {
    ghost use Rattle.std.specs.Prelude.{◌≡◌};
    ghost use Rattle.dl_query.specs.declared.fault.QueryFault.TheVariants.{NoMemory};

    ghost from_gives = { λ _ fault. fault ≡ NoMemory };

    fn from(_refused: AllocError) -> QueryFault {
        QueryFault::NoMemory
    }
}

impl<T: Drop> From<AllocFailed<T>> for QueryFault {
    ghost use Rattle.std.specs.Prelude.{◌≡◌};
    ghost use Rattle.dl_query.specs.declared.fault.QueryFault.TheVariants.{NoMemory};

    ghost from_gives = { λ _ fault. fault ≡ NoMemory };

    fn from(_refused: AllocFailed<T>) -> QueryFault {
        QueryFault::NoMemory
    }
}

impl From<NoMemory> for QueryFault {
    ghost use Rattle.std.specs.Prelude.{◌≡◌};
    ghost use Rattle.dl_query.specs.declared.fault.QueryFault.TheVariants.{NoMemory};

    ghost from_gives = { λ _ fault. fault ≡ NoMemory };

    fn from(_refused: NoMemory) -> QueryFault {
        QueryFault::NoMemory
    }
}
