// Why a command ends before it has answers.
ghost use Rattle.std.specs.Prelude.{◌≡◌};
ghost use Rattle.dl_run.specs.Stops.{stop_of_ontology, stop_of_data, stop_of_query, stop_of_load};
ghost use Rattle.dl_run.specs.declared.stop.Stop.TheVariants.{NoMemory};

use dl_core::LoadFault;
use dl_owl::{Construct, OwlFault};
use dl_query::QueryFault;
use dl_triples::TripleFault;
use std::alloc::AllocError;

/// The files of an input.
#[derive(Clone, Copy)]
pub(crate) enum InputFile {
    Ontology,
    Data,
    Query,
}

/// Why an input is refused. Bytes are counted from 0, lines of the data and places of the head from 1.
#[derive(Clone, Copy)]
pub(crate) enum Refusal {
    /// A file is too long.
    TooLong {
        file: InputFile,
    },
    /// A byte of the ontology at which no token begins, or one that fits no rule of the grammar.
    OntologySyntax {
        at: usize,
    },
    /// A parenthesis of the ontology inside as many open ones as there may be.
    TooDeep {
        at: usize,
    },
    /// A name of the ontology whose prefix isn't declared.
    PrefixUnknown {
        at: usize,
    },
    /// A construct of the ontology that isn't in OWL 2 QL.
    NotQl {
        at: usize,
        what: Construct,
    },
    /// A construct of the ontology that is left out.
    LeftOut {
        at: usize,
        what: Construct,
    },
    /// A reserved name in the ontology.
    OntologyReserved {
        at: usize,
    },
    /// A line of the data that is no triple.
    NoTriple {
        line: u64,
    },
    /// A line of the data with a blank node.
    BlankNode {
        line: u64,
    },
    /// A line of the data with a reserved name.
    DataReserved {
        line: u64,
    },
    /// A byte of the query at which no token begins, or one that fits no rule of the grammar.
    QuerySyntax {
        at: usize,
    },
    /// A reserved name in the query.
    QueryReserved {
        at: usize,
    },
    /// A place of the head of the query whose variable isn't in the body.
    Unsafe {
        place: u64,
    },
    /// A query over the limits of queries.
    TooLarge {
        atoms: u64,
        existential: u64,
        head: u64,
    },
    /// A name that has no place any more.
    TooManyNames,
    /// The weight of the axioms is over its limit.
    TooHeavy {
        weight: u64,
    },
    /// There are more predicates than the limit.
    TooManyPredicates {
        count: u64,
    },
    /// There are more different facts than the limit.
    TooManyFacts {
        count: u64,
    },
    /// There are more answers than the limit.
    TooMany {
        limit: u64,
    },
}

/// Why a command ends before it has answers.
#[derive(Clone, Copy)]
pub(crate) enum Stop {
    /// The input is refused.
    Refused(Refusal),
    /// Reading failed.
    ReadFault,
    /// There was no memory.
    NoMemory,
}

impl From<OwlFault> for Stop {
    ghost from_gives = { λ fault made. made ≡ stop_of_ontology fault };

    fn from(fault: OwlFault) -> Stop {
        Stop::Refused(match fault {
            OwlFault::Syntax { at } => Refusal::OntologySyntax { at },
            OwlFault::TooDeep { at } => Refusal::TooDeep { at },
            OwlFault::PrefixUnknown { at } => Refusal::PrefixUnknown { at },
            OwlFault::NotQl { at, what } => Refusal::NotQl { at, what },
            OwlFault::LeftOut { at, what } => Refusal::LeftOut { at, what },
            OwlFault::Reserved { at } => Refusal::OntologyReserved { at },
            OwlFault::TooManyNames { .. } => Refusal::TooManyNames,
            OwlFault::NoMemory => return Stop::NoMemory,
        })
    }
}

impl From<TripleFault> for Stop {
    ghost from_gives = { λ fault made. made ≡ stop_of_data fault };

    fn from(fault: TripleFault) -> Stop {
        Stop::Refused(match fault {
            TripleFault::Line { n } => Refusal::NoTriple { line: n },
            TripleFault::Blank { n } => Refusal::BlankNode { line: n },
            TripleFault::Reserved { n } => Refusal::DataReserved { line: n },
            TripleFault::TooManyNames { .. } => Refusal::TooManyNames,
            TripleFault::NoMemory => return Stop::NoMemory,
        })
    }
}

impl From<QueryFault> for Stop {
    ghost from_gives = { λ fault made. made ≡ stop_of_query fault };

    fn from(fault: QueryFault) -> Stop {
        Stop::Refused(match fault {
            QueryFault::Syntax { at } => Refusal::QuerySyntax { at },
            QueryFault::Reserved { at } => Refusal::QueryReserved { at },
            QueryFault::TooManyNames { .. } => Refusal::TooManyNames,
            QueryFault::Unsafe { place } => Refusal::Unsafe { place },
            QueryFault::TooLarge {
                atoms,
                existential,
                head,
            } => Refusal::TooLarge {
                atoms,
                existential,
                head,
            },
            QueryFault::NoMemory => return Stop::NoMemory,
        })
    }
}

impl From<LoadFault> for Stop {
    ghost from_gives = { λ fault made. made ≡ stop_of_load fault };

    fn from(fault: LoadFault) -> Stop {
        Stop::Refused(match fault {
            LoadFault::TooManyAxioms { weight } => Refusal::TooHeavy { weight },
            LoadFault::TooManyPredicates { count } => Refusal::TooManyPredicates { count },
            LoadFault::Full { rows } => Refusal::TooManyFacts { count: rows },
            LoadFault::NoMemory => return Stop::NoMemory,
        })
    }
}

impl From<dl_terms::NoMemory> for Stop {
    ghost from_gives = { λ _ made. made ≡ NoMemory };

    fn from(_refused: dl_terms::NoMemory) -> Stop {
        Stop::NoMemory
    }
}

impl From<AllocError> for Stop {
    ghost from_gives = { λ _ made. made ≡ NoMemory };

    fn from(_refused: AllocError) -> Stop {
        Stop::NoMemory
    }
}
