// Reachability in a directed graph: which nodes chains of edges lead to.
#![tactic(auto)]

mod closure;
mod edges;
mod graph;
mod matrix;
mod memory;
mod order;
mod search;

pub use closure::Closure;
pub use graph::{Graph, MAX_NODES, ends_below, fits};
pub use memory::NoMemory;
