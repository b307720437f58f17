// What an item of an ontology is.
use dl_terms::{Axiom, Fact};

/// What an axiom or a declaration adds to a document.
#[derive(Drop)]
pub(crate) enum Item {
    Axiom(Axiom),
    Fact(Fact),
    /// A declared class.
    Class(u32),
    /// A declared object property, or one that only a tautology names.
    Role(u32),
    /// Nothing.
    NoEffect,
}
