// The hierarchies of roles and of basic concepts: what is below what, by two graphs that are closed once.
#![tactic(auto)]

mod auxiliaries;
mod below;
mod edges;
mod fit;
mod guesses;
mod hier;
mod nodes;
mod ways;

pub use below::Below;
pub use fit::{MAX_PREDICATES, fits};
pub use hier::Hier;
