// Stream files: the commands of several streams, read and printed, and the lines of what becomes of them.
#![tactic(auto)]

mod answers;
mod cut;
mod draws;
mod edits;
mod fault;
mod form;
mod generated;
mod generated_axioms;
mod generated_laws;
mod generated_names;
mod generated_stream;
pub mod laws;
mod number;
mod outcome;
mod place;
mod ranked;
mod reading;
mod reply;
mod said;
mod stream_text;
mod streams;
mod text_laws;
mod text_sink;
pub mod worked_examples;

pub use dl_text::print_name;
pub use fault::{Kind, StreamFault};
pub use generated::{Generated, generate};
pub use generated_laws::generated_input_is_fit;
pub use outcome::{Outcome, print_outcome};
pub use reading::read_streams;
pub use stream_text::print_streams;
pub use streams::{Command, Streams};
pub use text_laws::{facts_are_read_back, queries_are_read_back};
