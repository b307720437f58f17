// The normal form of axioms: role inclusions, concept inclusions and negatives. Its size, and its auxiliary roles,
// without making it.
#![tactic(auto)]

mod filled;
mod form;
mod operands;
mod roles;
mod size;

pub use filled::{auxiliaries, auxiliaries_are_of_parts};
pub use form::normal;
pub use size::weight;
