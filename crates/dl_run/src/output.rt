// What is printed, piece by piece, to a sink, and through one that gathers the pieces. It takes no memory.
ghost use Rattle.std.specs.Prelude.{◌≡◌, ◌≤◌, [], length, OnOk, OnErr};
ghost use Rattle.std.specs.List.{flat_map};
ghost use Rattle.dl_io.specs.Count.{HasRisen};
ghost use Rattle.dl_io.specs.Printing.{Prints};
ghost use Rattle.dl_io.specs.Writing.{Gets, GetsPrefix};
ghost use Rattle.dl_run.specs.Answered.{text_of, text_of_answers};
ghost use Rattle.dl_run.specs.Output.{answer_text, answer_names};
ghost use Rattle.dl_run.specs.Pieces.{digits_of};
ghost use Rattle.dl_run.specs.Refusals.{refusal_text};
ghost use Rattle.dl_text.specs.NameText.{AreBelow};

use crate::answers::Answers;
use crate::refusals::words_of;
use crate::stop::{Refusal, Stop};
use crate::texts::{NO_MEMORY, READ_FAULT};
use dl_event::Answer;
use dl_io::{Failed, GatheringSink, Sink, write_all};
use dl_names::Names;
use dl_text::{Piece, print_answers, print_inconsistent, print_pieces};
use itoa::Buffer;

/// Prints answers, or what stands in their place, and hands all of it on.
pub(crate) fn print_output<S: Sink>(
    out: &mut GatheringSink<'_, S>,
    output: &Result<Answers, Stop>,
) -> Result<(), Failed>
    requires { out.old.gathered.now.items ≡ [] }
    ensures same_reference { out.new.sink.ghost_name ≡ out.old.sink.ghost_name }
    ensures all { OnOk result
        (Gets (S.got out.old.sink.now) (S.got out.new.sink.now) (text_of output.now)) }
    ensures prefix { OnErr result
        (GetsPrefix (S.got out.old.sink.now) (S.got out.new.sink.now) (text_of output.now)) }
    ensures count { S.faults out.old.sink.now ≤ S.faults out.new.sink.now }
    ensures failed { OnErr result
        (HasRisen (S.faults out.old.sink.now) (S.faults out.new.sink.now)) }
{
    put_output(out, output)?;
    out.finish()
}

/// Prints answers, or what stands in their place.
fn put_output<S: Sink>(sink: &mut S, output: &Result<Answers, Stop>) -> Result<(), Failed>
    ensures { Prints S.got S.faults S.lent result sink.old sink.new (text_of output.now) }
{
    match output {
        Ok(answers) => put_answers(sink, answers),
        Err(Stop::Refused(refusal)) => put_refusal(sink, *refusal),
        Err(Stop::ReadFault) => put_text(sink, READ_FAULT),
        Err(Stop::NoMemory) => put_text(sink, NO_MEMORY),
    }
}

/// Prints how many facts there are, and the answers or what is broken.
fn put_answers<S: Sink>(sink: &mut S, answers: &Answers) -> Result<(), Failed>
    ensures { Prints S.got S.faults S.lent result sink.old sink.new (text_of_answers answers.now) }
{
    print_pieces(
        sink,
        &[
            Piece::Text("facts "),
            Piece::Number(answers.facts as u64),
            Piece::Text(" skipped "),
            Piece::Number(answers.skipped),
            Piece::Text("\n"),
        ],
        &answers.names,
    )?;
    put_answer(sink, &answers.answer, &answers.names)
}

/// Prints answers, or what is broken.
fn put_answer<S: Sink>(sink: &mut S, answer: &Answer, names: &Names) -> Result<(), Failed>
    requires { AreBelow (length names.now) (answer_names answer.now) }
    ensures { Prints S.got S.faults S.lent result sink.old sink.new (answer_text names.now answer.now) }
{
    match answer {
        Answer::Found { tuples, .. } => print_answers(sink, tuples, names),
        Answer::Inconsistent { axiom, .. } => print_inconsistent(sink, axiom, names),
    }
}

/// Prints why an input is refused.
fn put_refusal<S: Sink>(sink: &mut S, refusal: Refusal) -> Result<(), Failed>
    ensures { Prints S.got S.faults S.lent result sink.old sink.new (refusal_text refusal) }
{
    let words = words_of(refusal);
    let (mut number, mut second, mut third) = (Buffer::new(), Buffer::new(), Buffer::new());
    let number = digits_of(&mut number, words.number);
    let second = digits_of(&mut second, words.second);
    let third = digits_of(&mut third, words.third);
    put_texts(
        sink,
        &[
            "refused: ",
            words.before,
            number,
            words.between,
            second,
            words.behind,
            third,
            words.last,
            "\n",
        ],
    )
}

/// The digits of a number, where there is one.
fn digits_of(buffer: &mut Buffer, number: Option<u64>) -> &str
    ensures { result.now ≡ digits_of number }
{
    match number {
        Some(number) => buffer.format(number),
        None => "",
    }
}

/// Prints texts one after another.
fn put_texts<S: Sink>(sink: &mut S, texts: &[&str]) -> Result<(), Failed>
    ensures { Prints S.got S.faults S.lent result sink.old sink.new (flat_map (λ text. text.now) texts.now) }
{
    for text in texts {
        put_text(sink, text)?;
    }
    Ok(())
}

/// Prints a text.
fn put_text<S: Sink>(sink: &mut S, text: &str) -> Result<(), Failed>
    ensures { Prints S.got S.faults S.lent result sink.old sink.new text.now }
{
    write_all(sink, text.as_bytes())
}
