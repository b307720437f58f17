// What is printed of a query that is answered.
ghost use Rattle.std.specs.Prelude.{length};
ghost use Rattle.dl_run.specs.Output.{answer_names};
ghost use Rattle.dl_text.specs.NameText.{AreBelow};

use dl_event::Answer;
use dl_names::Names;

/// Answers as tuples of numbers, or the axiom that is broken, with their names; how many facts there are and how many
/// triples were skipped: all that is printed of them.
#[derive(Drop)]
pub(crate) struct Answers {
    pub names: Names,
    pub facts: usize,
    pub skipped: u64,
    pub answer: Answer,
    ghost answer_named: { AreBelow (length names) (answer_names answer) },
}
