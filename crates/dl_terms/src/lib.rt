// The terms of DL-Lite_R: roles, concepts, axioms, facts, queries and their parts, and the definitions that
// contracts cite.
#![tactic(auto)]

mod axiom;
pub mod laws;
mod list;
mod memory;
mod order;
mod query;
mod role;
mod sets;
mod steps;
mod tuples;

pub use axiom::{Axiom, Fact, Part, Signature};
pub use list::List;
pub use memory::NoMemory;
pub use order::{axioms_are_ordered, facts_are_ordered, roles_are_ordered};
pub use query::{Atom, Disjunct, Probe, Query, Term};
pub use role::{Base, Basic, Negative, Normal, Role};
pub use sets::set_of;
pub use steps::Steps;
pub use tuples::{Pair, Tuples};
