ghost use Rattle.std.specs.Prelude.{◌≡◌};
ghost use Rattle.dl_names.specs.declared.fault.NameFault.TheVariants.{NoMemory};

use std::alloc::{AllocError, AllocFailed};

/// Why a text got no place.
#[derive(Clone, Copy, Debug, PartialEq, Eq)]
pub enum NameFault {
    /// The set holds `MAX_NAMES` names, and the text is none of them.
    Full,
    /// Memory was refused.
    NoMemory,
}

impl From<AllocError> for NameFault {
    ghost from_gives = { λ _ fault. fault ≡ NoMemory };

    fn from(_refused: AllocError) -> NameFault {
        NameFault::NoMemory
    }
}

impl<T: Drop> From<AllocFailed<T>> for NameFault {
    ghost from_gives = { λ _ fault. fault ≡ NoMemory };

    fn from(_refused: AllocFailed<T>) -> NameFault {
        NameFault::NoMemory
    }
}
