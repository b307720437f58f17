// Finite interpretations, the meaning of axioms, facts and queries in them, and the laws that tie the canonical
// structure to all finite models.
#![tactic(auto)]

mod axioms;
mod elements;
mod facts;
mod interp;
pub mod laws;
mod made;
mod operands;
mod pairs;
mod queries;
mod sets;
mod values;

pub use interp::Interp;
