// Maintenance: rows get the numbers of another epoch, rows that end by a horizon are dropped, and the epochs that
// nothing needs any more are told.
#![tactic(auto)]

mod migrate;
mod number;
mod pick;
mod reclaim;
mod sweep;
mod tally;

pub use migrate::{Moved, renumber};
pub use reclaim::dead;
pub use sweep::{SweptShard, swept};
