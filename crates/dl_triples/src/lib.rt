// The reader of facts in N-Triples: a triple is skipped, has no effect, or is a fact of a class or of a role.
#![tactic(auto)]

mod ahead;
mod fault;
pub mod laws;
mod line;
mod lines;
mod meaning;
mod reading;
mod runs;
mod spelling;
mod triple;

pub use fault::TripleFault;
pub use reading::{Triples, read_triples};
