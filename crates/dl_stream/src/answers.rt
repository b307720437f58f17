// What becomes of a query, printed to a sink. It takes no memory.
ghost use Rattle.std.specs.Prelude.{◌∷◌, [], All, length, codes};
ghost use Rattle.std.specs.Fmt.{decimal};
ghost use Rattle.dl_io.specs.Printing.{Prints};
ghost use Rattle.dl_text.specs.AnswerText.{answers_text, broken_names, inconsistent_text};
ghost use Rattle.dl_text.specs.NameText.{AreBelow};
ghost use Rattle.dl_stream.specs.Lines.{words_line};
ghost use Rattle.dl_stream.specs.Outcomes.{asked_text, answer_text, answer_names};

use dl_event::Answer;
use dl_io::{Failed, Sink};
use dl_names::Names;
use dl_terms::{Axiom, Tuples};
use dl_text::{Piece, print_answers, print_inconsistent, print_pieces};

/// Prints what a query is answered that was asked at the place of a pin.
pub(crate) fn put_answer<S: Sink>(
    sink: &mut S,
    place: u64,
    answer: &Answer,
    names: &Names,
) -> Result<(), Failed>
    requires { AreBelow (length names.now) (answer_names answer.now) }
    ensures { Prints S.got S.faults S.lent result sink.old sink.new (answer_text names.now place answer.now) }
{
    match answer {
        Answer::Found { version, tuples } => put_found(sink, place, *version, tuples, names),
        Answer::Inconsistent { version, axiom } => put_inconsistent(
            sink, place, *version, axiom, names,
        ),
    }
}

/// Prints that there are more answers than the limit.
pub(crate) fn put_too_many<S: Sink>(
    sink: &mut S,
    place: u64,
    version: u32,
    limit: u64,
    names: &Names,
) -> Result<(), Failed>
    ensures { Prints S.got S.faults S.lent result sink.old sink.new
        (asked_text place version (words_line (codes "more than" ∷ decimal limit ∷ codes "answers" ∷ []))) }
{
    print_pieces(
        sink,
        &[
            Piece::Text("ask place "),
            Piece::Number(place),
            Piece::Text(" version "),
            Piece::Number(version as u64),
            Piece::Text(" more than "),
            Piece::Number(limit),
            Piece::Text(" answers\n"),
        ],
        names,
    )
}

/// Prints the answers.
fn put_found<S: Sink>(
    sink: &mut S,
    place: u64,
    version: u32,
    tuples: &Tuples,
    names: &Names,
) -> Result<(), Failed>
    requires { All (AreBelow (length names.now)) tuples.now.tuples }
    ensures { Prints S.got S.faults S.lent result sink.old sink.new
        (asked_text place version (answers_text names.now tuples.now.tuples)) }
{
    put_asked(sink, place, version, names)?;
    print_answers(sink, tuples, names)
}

/// Prints what is broken.
fn put_inconsistent<S: Sink>(
    sink: &mut S,
    place: u64,
    version: u32,
    broken: &Option<Axiom>,
    names: &Names,
) -> Result<(), Failed>
    requires { AreBelow (length names.now) (broken_names broken.now) }
    ensures { Prints S.got S.faults S.lent result sink.old sink.new
        (asked_text place version (inconsistent_text names.now broken.now)) }
{
    put_asked(sink, place, version, names)?;
    print_inconsistent(sink, broken, names)
}

/// Prints at which place and version a query was asked, and a space.
fn put_asked<S: Sink>(sink: &mut S, place: u64, version: u32, names: &Names) -> Result<(), Failed>
    ensures { Prints S.got S.faults S.lent result sink.old sink.new (asked_text place version []) }
{
    print_pieces(
        sink,
        &[
            Piece::Text("ask place "),
            Piece::Number(place),
            Piece::Text(" version "),
            Piece::Number(version as u64),
            Piece::Text(" "),
        ],
        names,
    )
}
