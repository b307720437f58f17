use dl_terms::NoMemory;
use std::alloc::AllocError;

/// Why nothing is loaded: the first limit that is passed, or want of memory.
#[derive(Clone, Copy, PartialEq, Eq)]
pub enum LoadFault {
    /// The axioms weigh more than 65,536.
    TooManyAxioms { weight: u64 },
    /// The signature and the auxiliary roles are more than 4,096.
    TooManyPredicates { count: u64 },
    /// The facts are more than 4,194,304.
    Full { rows: u64 },
    /// Want of memory.
    NoMemory,
}

impl From<AllocError> for LoadFault {
    ghost use Rattle.std.specs.Prelude.{◌≡◌};
    ghost use Rattle.dl_core.specs.declared.fault.LoadFault.TheVariants.{NoMemory};

    ghost from_gives = { λ _ fault. fault ≡ NoMemory };

    fn from(_refused: AllocError) -> LoadFault {
        LoadFault::NoMemory
    }
}

impl From<NoMemory> for LoadFault {
    ghost use Rattle.std.specs.Prelude.{◌≡◌};
    ghost use Rattle.dl_core.specs.declared.fault.LoadFault.TheVariants.{NoMemory};

    ghost from_gives = { λ _ fault. fault ≡ NoMemory };

    fn from(_refused: NoMemory) -> LoadFault {
        LoadFault::NoMemory
    }
}
