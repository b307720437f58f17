ghost use Rattle.std.specs.Prelude.{◌≡◌};
ghost use Rattle.dl_triples.specs.declared.fault.TripleFault.TheVariants as faults;

use thiserror::Error;

/// Why a text of N-Triples has no value: the fault of its first line that has one, by that line's number from 1.
#[derive(Clone, Copy, Debug, PartialEq, Eq, Error)]
pub enum TripleFault {
    /// The line is no triple, no comment and not empty, and no blank node begins where a term has to begin.
    #[error("line {n}: not a triple")]
    Line { n: u64 },
    /// A blank node begins where the subject or, behind two right terms, the object has to begin.
    #[error("line {n}: blank node")]
    Blank { n: u64 },
    /// The line is a triple that says something and uses a reserved name.
    #[error("line {n}: reserved name")]
    Reserved { n: u64 },
    /// The line is a fact, and the name set is full and lacks one of its names.
    #[error("line {n}: too many names")]
    TooManyNames { n: u64 },
    /// Memory was refused.
    #[error("no memory")]
    NoMemory,
}

impl From<dl_terms::NoMemory> for TripleFault {
    ghost from_gives = { λ _ fault. fault ≡ faults.NoMemory };

    fn from(_refused: dl_terms::NoMemory) -> TripleFault {
        TripleFault::NoMemory
    }
}
