// Rewriting: the disjuncts over names that together have exactly the certain answers of a query.
#![tactic(auto)]

mod disjunct;
pub mod laws;
mod parts;
mod rewriting;
mod unify;

pub use rewriting::rewrite;
