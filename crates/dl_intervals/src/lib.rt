// Sets of numbers as lists of intervals that are sorted, disjoint and do not touch.
#![tactic(auto)]

mod intervals;
mod memory;

pub use intervals::{Intervals, ascends, interval_lists_are_unique_and_fewest};
pub use memory::NoMemory;
