// The text of names, axioms, facts, queries and answers: each once, as a definition and as what prints it to a sink.
#![tactic(auto)]

mod answers;
mod axioms;
mod facts;
mod operand;
mod pieces;
mod queries;

pub use answers::{print_answers, print_inconsistent};
pub use axioms::print_axiom;
pub use facts::print_fact;
pub use pieces::{Piece, print_name, print_pieces};
pub use queries::print_query;
