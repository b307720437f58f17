// Joins of the lists of probes, and the union of two answers.
#![tactic(auto)]

mod direct;
mod fault;
mod gather;
mod joined;
mod leaf;
mod meet;
mod merged;
mod need;
mod order;
mod probe;
mod reduced;
mod safe;
mod search;
mod turn;

pub use fault::JoinFault;
pub use joined::join;
pub use merged::merge;
pub use safe::is_safe;
