use crate::{Basic, List};

/// A term of a query: a variable by its number, or a name.
#[derive(Clone, Copy, PartialEq, Eq)]
pub enum Term {
    Var(u8),
    Name(u32),
}

/// An atom of a query: a class at a term, or a role between two terms.
#[derive(Clone, Copy, PartialEq, Eq)]
pub enum Atom {
    Is { class: u32, at: Term },
    Link { role: u32, from: Term, to: Term },
}

/// A conjunctive query. Its variables are the numbers below `vars`; those of the atoms that are not in the head are
/// existential (Calvanese, De Giacomo, Lembo, Lenzerini, Rosati 2007).
#[derive(Drop, PartialEq, Eq)]
pub struct Query {
    pub head: List<u8>,
    pub atoms: List<Atom>,
    pub vars: u8,
}

/// A probe of the data at names: one of some basic concepts holds, or a role joins two terms.
#[derive(Drop, PartialEq, Eq)]
pub enum Probe {
    AnyOf { basics: List<Basic>, at: Term },
    Joined { role: u32, from: Term, to: Term },
}

/// A disjunct of a rewritten query, over names alone. Its variables are the numbers below `vars`.
#[derive(Drop, PartialEq, Eq)]
pub struct Disjunct {
    pub head: List<Term>,
    pub probes: List<Probe>,
    pub vars: u8,
}
