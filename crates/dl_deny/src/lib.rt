// The queries of the negatives: what no model of the axioms has, as queries without head.
#![tactic(auto)]

mod copied;
mod denial;
mod excluded;

pub use copied::copy_of;
pub use denial::{Denial, denials};
pub use excluded::query_of;
