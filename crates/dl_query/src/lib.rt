// Queries: the reader of query texts.
#![tactic(auto)]

mod body;
mod fault;
mod head;
pub mod laws;
mod query;
mod ranking;
mod statement;
mod token;
mod tokens;
mod variables;

pub use fault::QueryFault;
pub use query::read_query;
pub use ranking::ranked;
