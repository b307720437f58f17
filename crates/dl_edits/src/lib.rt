// What edits make of axioms, facts and signatures; sets of axioms, facts and numbers as lists that ascend strictly; and
// how many predicates there are.
#![tactic(auto)]

mod axiom_edits;
mod counts;
mod fact_edits;
mod sets;
mod signature_edits;

pub use axiom_edits::edited_axioms;
pub use counts::predicate_count;
pub use fact_edits::decided_facts;
pub use sets::{axiom_set, axioms_ascend, fact_set, facts_ascend, number_set};
pub use signature_edits::edited_signature;
