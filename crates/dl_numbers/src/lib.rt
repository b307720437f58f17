// Numbers of predicates, from 1, by one rule; and the places of a graph in depth-first order.
#![tactic(auto)]

mod classes;
pub mod laws;
mod numbering;
mod order;

pub use numbering::Numbering;
pub use order::depth_first;
