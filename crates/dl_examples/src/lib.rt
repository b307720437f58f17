// What the definitions of `dl_terms`, `dl_tree` and `dl_numbers` give on small ontologies and queries, worked out.
// Nothing stands on this crate.
#![tactic(auto)]

pub mod examples;
pub mod folds;
pub mod numbers;
