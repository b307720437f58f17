// Queries printed to a sink. It takes no memory.
ghost use Rattle.std.specs.Prelude.{◌++◌, All, length, map};
ghost use Rattle.dl_io.specs.Printing.{Prints};
ghost use Rattle.dl_terms.specs.Occurring.{atom_names, query_names};
ghost use Rattle.dl_text.specs.NameText.{AreBelow, comma_joined};
ghost use Rattle.dl_text.specs.QueryText.{variable_text, atom_text, query_text};

use crate::pieces::{Piece, print_pieces, separator};
use dl_io::{Failed, Sink};
use dl_names::Names;
use dl_terms::{Atom, Query, Term};

/// Writes a query, with variables by number and its names in full. The numbers of names are below `names.len()`. It
/// takes no memory. Where a write failed, the sink got some first bytes of it.
pub fn print_query<S: Sink>(sink: &mut S, query: &Query, names: &Names) -> Result<(), Failed>
    requires { AreBelow (length names.now) (query_names query.now) }
    ensures { Prints S.got S.faults S.lent result sink.old sink.new (query_text names.now query.now) }
{
    print_pieces(sink, &[Piece::Text("q(")], names)?;
    put_variables(sink, query.head.as_slice(), names)?;
    print_pieces(sink, &[Piece::Text(") :- ")], names)?;
    put_atoms(sink, query.atoms.as_slice(), names)
}

/// Prints variables with a comma and a space between them.
fn put_variables<S: Sink>(sink: &mut S, variables: &[u8], names: &Names) -> Result<(), Failed>
    ensures { Prints S.got S.faults S.lent result sink.old sink.new
        (comma_joined (map variable_text variables.now)) }
{
    for (i, variable) in variables.iter().enumerate() {
        let term = Piece::Term(Term::Var(*variable));
        print_pieces(sink, &[Piece::Text(separator(i)), term], names)?;
    }
    Ok(())
}

/// Prints atoms with a comma and a space between them.
fn put_atoms<S: Sink>(sink: &mut S, atoms: &[Atom], names: &Names) -> Result<(), Failed>
    requires { All (λ atom. AreBelow (length names.now) (atom_names atom)) atoms.now }
    ensures { Prints S.got S.faults S.lent result sink.old sink.new
        (comma_joined (map (atom_text names.now) atoms.now)) }
{
    for (i, atom) in atoms.iter().enumerate() {
        put_atom(sink, separator(i), *atom, names)?;
    }
    Ok(())
}

/// Prints a text and then an atom.
fn put_atom<S: Sink>(
    sink: &mut S,
    before: &'static str,
    atom: Atom,
    names: &Names,
) -> Result<(), Failed>
    requires { AreBelow (length names.now) (atom_names atom) }
    ensures { Prints S.got S.faults S.lent result sink.old sink.new
        (before.now ++ atom_text names.now atom) }
{
    match atom {
        Atom::Is { class, at } => print_pieces(
            sink,
            &[
                Piece::Text(before),
                Piece::Name(class),
                Piece::Text("("),
                Piece::Term(at),
                Piece::Text(")"),
            ],
            names,
        ),
        Atom::Link { role, from, to } => print_pieces(
            sink,
            &[
                Piece::Text(before),
                Piece::Name(role),
                Piece::Text("("),
                Piece::Term(from),
                Piece::Text(", "),
                Piece::Term(to),
                Piece::Text(")"),
            ],
            names,
        ),
    }
}
