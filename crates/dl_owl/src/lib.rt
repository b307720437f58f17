// Ontologies in OWL 2 QL: the functional-style syntax, and the text of an axiom.
#![tactic(auto)]

mod annotation;
mod assertion;
mod axiom;
mod class;
mod class_axiom;
mod cursor;
mod different;
mod document;
mod entity;
mod fault;
mod iri;
mod item;
mod laws;
mod left;
mod list;
mod name;
mod ontology;
mod pair;
mod prefixes;
mod prologue;
mod ranked;
mod reading;
mod refused;
mod right;
mod role;
mod role_axiom;
mod text;

pub use document::Document;
pub use fault::{Construct, OwlFault};
pub use laws::{
    axioms_are_read_back, faults_come_at_their_tokens, reading_gives_one_result,
    values_are_those_of_the_grammar,
};
pub use reading::{read_axiom, read_ontology};
pub use text::axiom_text;
