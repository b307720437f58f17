// The names of a run: each text has a place by first occurrence, and, once all are known, a number by its rank in
// byte order.
#![tactic(auto)]

mod arrange;
mod axiom_ranks;
mod fault;
mod fronts;
mod frozen;
mod hints;
mod iris;
mod ranking;
mod set;

pub use fault::NameFault;
pub use frozen::{Names, Ranks};
pub use iris::{OWL_NOTHING, is_free, is_iri_byte, is_reserved, may_be_class};
pub use set::{MAX_NAMES, NameSet};
