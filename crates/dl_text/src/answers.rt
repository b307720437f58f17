// The lines of answers, and of a broken axiom, printed to a sink. It takes no memory.
ghost use Rattle.std.specs.Prelude.{◌<◌, [], length, map, slice_index_or};
ghost use Rattle.std.specs.List.{All, flat_map};
ghost use Rattle.dl_io.specs.Printing.{Prints};
ghost use Rattle.dl_text.specs.AnswerText.{tuple_line, answers_text, broken_text, broken_names, inconsistent_text};
ghost use Rattle.dl_text.specs.NameText.{AreBelow, name_text, comma_joined};

use crate::axioms::print_axiom;
use crate::pieces::{Piece, print_pieces, separator};
use dl_io::{Failed, Sink};
use dl_names::Names;
use dl_terms::{Axiom, Tuples};

/// Writes how many answers there are, and a line for each, with its names in full. The numbers of names are below
/// `names.len()`. It takes no memory. Where a write failed, the sink got some first bytes of the lines.
pub fn print_answers<S: Sink>(sink: &mut S, tuples: &Tuples, names: &Names) -> Result<(), Failed>
    requires { All (AreBelow (length names.now)) tuples.now.tuples }
    ensures { Prints S.got S.faults S.lent result sink.old sink.new (answers_text names.now tuples.now.tuples) }
{
    print_pieces(
        sink,
        &[
            Piece::Text("answers "),
            Piece::Number(tuples.len()),
            Piece::Text("\n"),
        ],
        names,
    )?;
    put_tuples(sink, tuples, names)
}

/// Writes the line that says which axiom is broken, with its names in full; `None` stands for `owl:Nothing`. The
/// numbers of names are below `names.len()`. It takes no memory. Where a write failed, the sink got some first bytes
/// of the line.
pub fn print_inconsistent<S: Sink>(
    sink: &mut S,
    broken: &Option<Axiom>,
    names: &Names,
) -> Result<(), Failed>
    requires { AreBelow (length names.now) (broken_names broken.now) }
    ensures { Prints S.got S.faults S.lent result sink.old sink.new (inconsistent_text names.now broken.now) }
{
    print_pieces(sink, &[Piece::Text("inconsistent ")], names)?;
    put_broken(sink, broken, names)?;
    print_pieces(sink, &[Piece::Text("\n")], names)
}

/// Prints a line for each tuple.
fn put_tuples<S: Sink>(sink: &mut S, tuples: &Tuples, names: &Names) -> Result<(), Failed>
    requires { All (AreBelow (length names.now)) tuples.now.tuples }
    ensures { Prints S.got S.faults S.lent result sink.old sink.new
        (flat_map (tuple_line names.now) tuples.now.tuples) }
{
    for row in 0..tuples.len() {
        put_tuple(sink, tuples, row, names)?;
    }
    Ok(())
}

/// Prints the line of a tuple.
fn put_tuple<S: Sink>(sink: &mut S, tuples: &Tuples, row: u64, names: &Names) -> Result<(), Failed>
    requires row { row < length tuples.now.tuples }
    requires named { AreBelow (length names.now) (slice_index_or tuples.now.tuples row []) }
    ensures { Prints S.got S.faults S.lent result sink.old sink.new
        (tuple_line names.now (slice_index_or tuples.now.tuples row [])) }
{
    print_pieces(sink, &[Piece::Text("(")], names)?;
    put_names(sink, tuples, row, names)?;
    print_pieces(sink, &[Piece::Text(")\n")], names)
}

/// Prints the names of a tuple, with a comma and a space between them.
fn put_names<S: Sink>(sink: &mut S, tuples: &Tuples, row: u64, names: &Names) -> Result<(), Failed>
    requires row { row < length tuples.now.tuples }
    requires named { AreBelow (length names.now) (slice_index_or tuples.now.tuples row []) }
    ensures { Prints S.got S.faults S.lent result sink.old sink.new
        (comma_joined (map (name_text names.now) (slice_index_or tuples.now.tuples row []))) }
{
    for column in 0..tuples.width() {
        print_pieces(
            sink,
            &[
                Piece::Text(separator(column as usize)),
                Piece::Name(tuples.name(row, column)),
            ],
            names,
        )?;
    }
    Ok(())
}

/// Prints a broken axiom.
fn put_broken<S: Sink>(sink: &mut S, broken: &Option<Axiom>, names: &Names) -> Result<(), Failed>
    requires { AreBelow (length names.now) (broken_names broken.now) }
    ensures { Prints S.got S.faults S.lent result sink.old sink.new
        (broken_text names.now broken.now) }
{
    match broken {
        Some(stated) => print_axiom(sink, stated, names),
        None => print_pieces(sink, &[Piece::Text("owl:Nothing")], names),
    }
}
