// The commands of the program: their words, what they read, what they answer and what they print.
#![tactic(auto)]

mod answer;
mod answers;
mod base;
mod files;
mod input;
mod laws;
mod output;
mod program;
mod refusals;
mod signature;
mod status;
mod stop;
mod store;
mod texts;
mod words;

pub use answer::answer_command;
pub use laws::{outputs_are_determined, words_have_one_form_at_most};
pub use program::{quest, without_memory};
pub use status::Status;
pub use words::{AnswerWords, Form, GenWords, RunWords, form_of};
