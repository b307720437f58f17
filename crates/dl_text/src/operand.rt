// The operands of axioms, printed to a sink. It takes no memory.
ghost use Rattle.std.specs.Prelude.{ℕ, ◌++◌, ◌∷◌, [], List, length, map};
ghost use Rattle.std.specs.List.{All, flat_map};
ghost use Rattle.dl_names.specs.NameList.{Text};
ghost use Rattle.dl_text.specs.NameText.{AreBelow};
ghost use Rattle.dl_text.specs.AxiomText.{joined};
ghost use Rattle.dl_io.specs.Printing.{Prints};

use crate::pieces::{Piece, print_pieces};
use dl_io::{Failed, Sink};
use dl_names::Names;
use dl_terms::{Basic, Part, Role};

/// An operand of which an axiom may have a list.
pub(crate) trait Operand {
    // Its text, by the texts of the names.
    ghost text: { List Text → Self → Text };
    // The names in it.
    ghost named: { Self → List ℕ };

    /// Prints it.
    fn put<S: Sink>(&self, sink: &mut S, names: &Names) -> Result<(), Failed>
        requires { AreBelow (length names.now) (named self.now) }
        ensures { Prints S.got S.faults S.lent result sink.old sink.new
            (text names.now self.now) };
}

impl Operand for Role {
    ghost use Rattle.dl_text.specs.AxiomText.{role_text};
    ghost use Rattle.dl_terms.specs.Occurring.{role_names};

    ghost text = { role_text };

    ghost named = { role_names };

    fn put<S: Sink>(&self, sink: &mut S, names: &Names) -> Result<(), Failed> {
        print_pieces(sink, &[Piece::Role(*self)], names)
    }
}

impl Operand for Basic {
    ghost use Rattle.dl_text.specs.AxiomText.{basic_text};
    ghost use Rattle.dl_terms.specs.Occurring.{basic_names};

    ghost text = { basic_text };

    ghost named = { basic_names };

    fn put<S: Sink>(&self, sink: &mut S, names: &Names) -> Result<(), Failed> {
        match *self {
            Basic::Class(class) => print_pieces(sink, &[Piece::Class(class)], names),
            Basic::SomeOf(role) => print_pieces(
                sink,
                &[
                    Piece::Text("ObjectSomeValuesFrom("),
                    Piece::Role(role),
                    Piece::Text(" owl:Thing)"),
                ],
                names,
            ),
        }
    }
}

impl Operand for Part {
    ghost use Rattle.dl_text.specs.AxiomText.{part_text};
    ghost use Rattle.dl_terms.specs.Occurring.{part_names};

    ghost text = { part_text };

    ghost named = { part_names };

    fn put<S: Sink>(&self, sink: &mut S, names: &Names) -> Result<(), Failed> {
        match *self {
            Part::Thing => print_pieces(sink, &[Piece::Text("owl:Thing")], names),
            Part::Class(class) => Basic::Class(class).put(sink, names),
            Part::Any(role) => Basic::SomeOf(role).put(sink, names),
            Part::Fill(role, class) => print_pieces(
                sink,
                &[
                    Piece::Text("ObjectSomeValuesFrom("),
                    Piece::Role(role),
                    Piece::Text(" "),
                    Piece::Class(class),
                    Piece::Text(")"),
                ],
                names,
            ),
            Part::Not(basic) => put_complement(sink, basic, names),
        }
    }
}

ghost use Rattle.dl_text.specs.AxiomText.{part_text};
ghost use Rattle.dl_terms.specs.Occurring.{basic_names};
ghost use Rattle.dl_terms.specs.declared.axiom.Part.TheVariants as part;

/// Prints what is outside of a class expression.
fn put_complement<S: Sink>(sink: &mut S, basic: Basic, names: &Names) -> Result<(), Failed>
    requires { AreBelow (length names.now) (basic_names basic) }
    ensures { Prints S.got S.faults S.lent result sink.old sink.new
        (part_text names.now (part.Not basic)) }
{
    print_pieces(sink, &[Piece::Text("ObjectComplementOf(")], names)?;
    basic.put(sink, names)?;
    print_pieces(sink, &[Piece::Text(")")], names)
}

/// Prints operands with one space between them.
pub(crate) fn put_joined<S: Sink, T: Operand>(
    sink: &mut S,
    operands: &[T],
    names: &Names,
) -> Result<(), Failed>
    requires { All (λ operand. AreBelow (length names.now) (T.named operand)) operands.now }
    ensures { Prints S.got S.faults S.lent result sink.old sink.new
        (joined (map (T.text names.now) operands.now)) }
{
    let [first, rest @ ..] = operands else {
        return Ok(());
    };
    first.put(sink, names)?;
    put_spaced(sink, rest, names)
}

/// Prints operands with a space before each.
fn put_spaced<S: Sink, T: Operand>(
    sink: &mut S,
    operands: &[T],
    names: &Names,
) -> Result<(), Failed>
    requires { All (λ operand. AreBelow (length names.now) (T.named operand)) operands.now }
    ensures { Prints S.got S.faults S.lent result sink.old sink.new
        (flat_map (λ operand. 32 ∷ T.text names.now operand) operands.now) }
{
    for operand in operands {
        put_after_space(sink, operand, names)?;
    }
    Ok(())
}

/// Prints an operand with a space before it.
fn put_after_space<S: Sink, T: Operand>(
    sink: &mut S,
    operand: &T,
    names: &Names,
) -> Result<(), Failed>
    requires { AreBelow (length names.now) (T.named operand.now) }
    ensures { Prints S.got S.faults S.lent result sink.old sink.new
        (32 ∷ T.text names.now operand.now) }
{
    print_pieces(sink, &[Piece::Text(" ")], names)?;
    operand.put(sink, names)
}
