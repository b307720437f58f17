use crate::Reply;
use dl_terms::{Axiom, NoMemory, Tuples};
use std::alloc::AllocError;

/// What a query is answered, at a version of the ontology and the data.
#[derive(Drop)]
pub enum Answer {
    /// The certain answers, each once, ascending.
    Found { version: u32, tuples: Tuples },
    /// The first broken axiom. None stands for `owl:Nothing`.
    Inconsistent { version: u32, axiom: Option<Axiom> },
}

/// Why a query has no answer.
#[derive(Clone, Copy, PartialEq, Eq)]
pub enum AskFault {
    /// The stream has no pin.
    NoPin,
    /// No axiom is broken, and there are more certain answers than the limit, at this version.
    TooMany { version: u32 },
    /// Want of memory.
    NoMemory,
}

impl From<AllocError> for AskFault {
    ghost use Rattle.std.specs.Prelude.{◌≡◌};
    ghost use Rattle.dl_event.specs.declared.answer.AskFault.TheVariants.{NoMemory};

    ghost from_gives = { λ _ fault. fault ≡ NoMemory };

    fn from(_refused: AllocError) -> AskFault {
        AskFault::NoMemory
    }
}

impl From<NoMemory> for AskFault {
    ghost use Rattle.std.specs.Prelude.{◌≡◌};
    ghost use Rattle.dl_event.specs.declared.answer.AskFault.TheVariants.{NoMemory};

    ghost from_gives = { λ _ fault. fault ≡ NoMemory };

    fn from(_refused: NoMemory) -> AskFault {
        AskFault::NoMemory
    }
}

/// An event's place in the history, and its reply. Places go from 1.
#[derive(Drop)]
pub struct Placed {
    pub place: u64,
    pub reply: Reply,
}
