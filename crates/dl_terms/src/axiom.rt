use crate::{Basic, List, Role};

/// A part of the right side of an inclusion.
#[derive(Clone, Copy, PartialEq, Eq, PartialOrd, Ord)]
pub enum Part {
    /// `owl:Thing`.
    Thing,
    Class(u32),
    /// `ObjectSomeValuesFrom(r owl:Thing)`.
    Any(Role),
    /// `ObjectSomeValuesFrom(r C)`.
    Fill(Role, u32),
    /// `ObjectComplementOf(B)`.
    Not(Basic),
}

/// An axiom of OWL 2 QL on classes and object properties. Its order is by kind, as listed, and then by operands.
/// No role of an axiom is an auxiliary role: those stand in the normal form alone (`HasNoAuxiliary` of the
/// definitions).
#[derive(Drop, PartialEq, Eq, PartialOrd, Ord)]
pub enum Axiom {
    SubClass { sub: Basic, sup: List<Part> },
    EquivalentClasses(List<Basic>),
    DisjointClasses(List<Basic>),
    SubRole { sub: Role, sup: Role },
    EquivalentRoles(List<Role>),
    DisjointRoles(List<Role>),
    InverseRoles { one: Role, two: Role },
    Domain { role: Role, sup: List<Part> },
    Range { role: Role, sup: List<Part> },
    Symmetric(Role),
    Asymmetric(Role),
    Irreflexive(Role),
}

/// A fact: an individual is in a class, or a role joins two individuals.
#[derive(Clone, Copy, PartialEq, Eq, PartialOrd, Ord)]
pub enum Fact {
    Is { class: u32, who: u32 },
    Link { role: u32, from: u32, to: u32 },
}

/// The predicates that are declared or used. Both lists ascend strictly.
#[derive(Drop, PartialEq, Eq)]
pub struct Signature {
    pub classes: List<u32>,
    pub roles: List<u32>,
}
