// Why a text is no ontology of the profile.
ghost use Rattle.std.specs.Prelude.{◌≡◌};
ghost use Rattle.dl_owl.specs.Causes.{construct_words};

use dl_lex::Keyword;
use dl_terms::NoMemory;
use std::alloc::{AllocError, AllocFailed};
use std::fmt;
use thiserror::Error;

/// A construct that is refused by name.
#[derive(Clone, Copy, PartialEq, Eq)]
pub enum Construct {
    /// The construct that a keyword begins.
    Keyword(Keyword),
    /// `owl:Thing` on a left side.
    Thing,
    /// A blank node as an individual.
    AnonymousIndividual,
}

impl Construct {
    /// The words in which it is reported.
    pub fn text(self) -> &'static str
        ensures { result.now ≡ construct_words self }
    {
        match self {
            Construct::Keyword(keyword) => keyword.text(),
            Construct::Thing => "owl:Thing",
            Construct::AnonymousIndividual => "anonymous individual",
        }
    }
}

impl fmt::Display for Construct {
    fn fmt<W: fmt::Write>(&self, f: &mut fmt::Formatter<W>) -> fmt::Result {
        f.write_str(self.text())
    }
}

impl fmt::Debug for Construct {
    fn fmt<W: fmt::Write>(&self, f: &mut fmt::Formatter<W>) -> fmt::Result {
        f.write_str(self.text())
    }
}

/// Why a text gave no value: the first token at which reading can't go on, by its first byte `at`, counted from 0. Of
/// several causes on one token the first in this order is told.
#[derive(Clone, Copy, Debug, PartialEq, Eq, Error)]
pub enum OwlFault {
    /// No token begins there, or the token fits no rule of the grammar there.
    #[error("byte {at}: syntax")]
    Syntax { at: usize },
    /// An opening parenthesis inside 64 open ones.
    #[error("byte {at}: too deep")]
    TooDeep { at: usize },
    /// A short IRI whose prefix isn't declared.
    #[error("byte {at}: unknown prefix")]
    PrefixUnknown { at: usize },
    /// The token begins a construct that is not in OWL 2 QL.
    #[error("byte {at}: not in OWL 2 QL: {what}")]
    NotQl { at: usize, what: Construct },
    /// The token begins a construct that is left out.
    #[error("byte {at}: left out: {what}")]
    LeftOut { at: usize, what: Construct },
    /// A name of one of the reserved namespaces where none may stand.
    #[error("byte {at}: reserved name")]
    Reserved { at: usize },
    /// The name set is full and lacks this name.
    #[error("byte {at}: too many names")]
    TooManyNames { at: usize },
    /// Memory was refused.
    #[error("no memory")]
    NoMemory,
}

impl From<AllocError> for OwlFault {
    ghost use Rattle.std.specs.Prelude.{◌≡◌};
    ghost use Rattle.dl_owl.specs.declared.fault.OwlFault.TheVariants.{NoMemory};

    ghost from_gives = { λ _ fault. fault ≡ NoMemory };

    fn from(_refused: AllocError) -> OwlFault {
        OwlFault::NoMemory
    }
}

impl<T: Drop> From<AllocFailed<T>> for OwlFault {
    ghost use Rattle.std.specs.Prelude.{◌≡◌};
    ghost use Rattle.dl_owl.specs.declared.fault.OwlFault.TheVariants.{NoMemory};

    ghost from_gives = { λ _ fault. fault ≡ NoMemory };

    fn from(_refused: AllocFailed<T>) -> OwlFault {
        OwlFault::NoMemory
    }
}

impl From<NoMemory> for OwlFault {
    ghost use Rattle.std.specs.Prelude.{◌≡◌};
    ghost use Rattle.dl_owl.specs.declared.fault.OwlFault.TheVariants.{NoMemory};

    ghost from_gives = { λ _ fault. fault ≡ NoMemory };

    fn from(_refused: NoMemory) -> OwlFault {
        OwlFault::NoMemory
    }
}
