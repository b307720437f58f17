// Texts printed to a sink, piece by piece. It takes no memory.
ghost use Rattle.std.specs.Prelude.{◌≡◌, ◌<◌, length};
ghost use Rattle.std.specs.Fmt.{decimal};
ghost use Rattle.std.specs.List.{flat_map};
ghost use Rattle.dl_text.specs.AxiomText.{property_of, class_text, role_text};
ghost use Rattle.dl_text.specs.NameText.{AreBelow, name_text};
ghost use Rattle.dl_text.specs.Pieces.{piece_text, piece_names, separator};
ghost use Rattle.dl_text.specs.QueryText.{variable_text, term_text};
ghost use Rattle.dl_io.specs.Printing.{Prints};
ghost use Rattle.dl_terms.specs.Occurring.{role_names, term_names};

use dl_io::{Failed, Sink, write_all};
use dl_names::{Names, OWL_NOTHING};
use dl_terms::{Base, Role, Term};
use itoa::Buffer;

/// A piece of a text that is printed.
#[derive(Clone, Copy)]
pub enum Piece<'a> {
    /// A text as it is.
    Text(&'a str),
    /// A number in decimal digits.
    Number(u64),
    /// A name in full, in `<` and `>`.
    Name(u32),
    /// The same of a class, but for `owl:Nothing`.
    Class(u32),
    /// A role as an axiom has it: an object property, or its inverse.
    Role(Role),
    /// A term of a query: a variable by its number behind `?v`, or a name.
    Term(Term),
}

/// Writes pieces one after another, with names by their texts. The numbers of names are below `names.len()`. It takes
/// no memory. Where a write failed, the sink got some first bytes of them.
pub fn print_pieces<S: Sink>(
    sink: &mut S,
    pieces: &[Piece<'_>],
    names: &Names,
) -> Result<(), Failed>
    requires { AreBelow (length names.now) (flat_map piece_names pieces.now) }
    ensures { Prints S.got S.faults S.lent result sink.old sink.new
        (flat_map (piece_text names.now) pieces.now) }
{
    for piece in pieces {
        put(sink, piece, names)?;
    }
    Ok(())
}

/// Prints a piece.
fn put<S: Sink>(sink: &mut S, piece: &Piece<'_>, names: &Names) -> Result<(), Failed>
    requires { AreBelow (length names.now) (piece_names piece.now) }
    ensures { Prints S.got S.faults S.lent result sink.old sink.new
        (piece_text names.now piece.now) }
{
    match *piece {
        Piece::Text(text) => write(sink, text),
        Piece::Number(number) => put_number(sink, number),
        Piece::Name(name) => print_name(sink, name, names),
        Piece::Class(class) => put_class(sink, class, names),
        Piece::Role(role) => put_role(sink, role, names),
        Piece::Term(term) => put_term(sink, term, names),
    }
}

/// Writes the name of a number in full, in `<` and `>`. The number is below `names.len()`. It takes no memory. Where a
/// write failed, the sink got some first bytes of it.
pub fn print_name<S: Sink>(sink: &mut S, name: u32, names: &Names) -> Result<(), Failed>
    requires { name < length names.now }
    ensures { Prints S.got S.faults S.lent result sink.old sink.new
        (name_text names.now name) }
{
    write(sink, "<")?;
    write(sink, names.text(name))?;
    write(sink, ">")
}

/// Prints a class.
fn put_class<S: Sink>(sink: &mut S, class: u32, names: &Names) -> Result<(), Failed>
    requires { class < length names.now }
    ensures { Prints S.got S.faults S.lent result sink.old sink.new
        (class_text names.now class) }
{
    if OWL_NOTHING == names.text(class) {
        return write(sink, "owl:Nothing");
    }
    print_name(sink, class, names)
}

/// Prints a role.
fn put_role<S: Sink>(sink: &mut S, role: Role, names: &Names) -> Result<(), Failed>
    requires { AreBelow (length names.now) (role_names role) }
    ensures { Prints S.got S.faults S.lent result sink.old sink.new
        (role_text names.now role) }
{
    let property = property_of(role);
    if role.inverse {
        write(sink, "ObjectInverseOf(")?;
        print_name(sink, property, names)?;
        return write(sink, ")");
    }
    print_name(sink, property, names)
}

/// Prints a term of a query.
fn put_term<S: Sink>(sink: &mut S, term: Term, names: &Names) -> Result<(), Failed>
    requires { AreBelow (length names.now) (term_names term) }
    ensures { Prints S.got S.faults S.lent result sink.old sink.new (term_text names.now term) }
{
    match term {
        Term::Var(variable) => put_variable(sink, variable),
        Term::Name(name) => print_name(sink, name, names),
    }
}

/// Prints a variable by its number.
fn put_variable<S: Sink>(sink: &mut S, variable: u8) -> Result<(), Failed>
    ensures { Prints S.got S.faults S.lent result sink.old sink.new (variable_text variable) }
{
    write(sink, "?v")?;
    put_number(sink, variable as u64)
}

/// Prints a number in decimal digits.
fn put_number<S: Sink>(sink: &mut S, number: u64) -> Result<(), Failed>
    ensures { Prints S.got S.faults S.lent result sink.old sink.new (decimal number) }
{
    write(sink, Buffer::new().format(number))
}

/// What stands before an item of a list.
pub(crate) fn separator(at: usize) -> &'static str
    ensures { result.now ≡ separator at }
{
    if at == 0 { "" } else { ", " }
}

/// The object property of a role.
fn property_of(role: Role) -> u32
    ensures { result ≡ property_of role }
{
    match role.base {
        Base::Named(name) => name,
        Base::Auxiliary { role, .. } => role,
    }
}

/// Writes a text.
fn write<S: Sink>(sink: &mut S, text: &str) -> Result<(), Failed>
    ensures { Prints S.got S.faults S.lent result sink.old sink.new text.now }
{
    write_all(sink, text.as_bytes())
}
