ghost use Rattle.std.specs.Prelude.{◌≡◌};
ghost use Rattle.dl_stream.specs.declared.fault.StreamFault.TheVariants as faults;

use thiserror::Error;

/// What is wrong with a line of a stream file.
#[derive(Clone, Copy, Debug, PartialEq, Eq, Error)]
pub enum Kind {
    /// It has none of the forms, it may not stand there, or a number is out of range.
    #[error("not a command")]
    Form,
    /// The reader of axioms refuses it, and not for too many names.
    #[error("axiom")]
    Axiom,
    /// It is no triple, or the reader of triples refuses it, and not for too many names.
    #[error("triple")]
    Triple,
    /// The reader of queries refuses it, and not for too many names.
    #[error("query")]
    Query,
    /// The bytes end inside the commit that begins there.
    #[error("commit not ended")]
    NotEnded,
    /// It begins the 65th stream.
    #[error("too many streams")]
    TooManyStreams,
    /// It begins the 1,048,577th command.
    #[error("too many commands")]
    TooManyCommands,
    /// The name set is full and lacks one of its names.
    #[error("too many names")]
    TooManyNames,
}

/// Why a stream file has no value: the fault of its first faulty line, by that line's number from 1.
#[derive(Clone, Copy, Debug, PartialEq, Eq, Error)]
pub enum StreamFault {
    #[error("line {n}: {kind}")]
    Line { n: u64, kind: Kind },
    /// Memory was refused.
    #[error("no memory")]
    NoMemory,
}

impl From<dl_terms::NoMemory> for StreamFault {
    ghost from_gives = { λ _ fault. fault ≡ faults.NoMemory };

    fn from(_refused: dl_terms::NoMemory) -> StreamFault {
        StreamFault::NoMemory
    }
}
