// Frozen epochs: an ontology with its hierarchies and a number for each name of its signature; which epoch covers a
// version; and the predicates of terms.
#![tactic(auto)]

mod copy;
mod entry;
mod epoch;
mod epochs;
mod fit;
mod numbers;
mod predicates;

pub use copy::{copied_axiom, copied_axioms, copied_signature};
pub use entry::Entry;
pub use epoch::Epoch;
pub use epochs::Epochs;
pub use fit::{MAX_WEIGHT, fits};
pub use numbers::Ranges;
pub use predicates::{push_axiom, push_fact};
