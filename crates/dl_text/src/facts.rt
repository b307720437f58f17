// Facts printed to a sink. It takes no memory.
ghost use Rattle.std.specs.Prelude.{length};
ghost use Rattle.dl_io.specs.Printing.{Prints};
ghost use Rattle.dl_terms.specs.Occurring.{fact_names};
ghost use Rattle.dl_text.specs.FactText.{fact_text};
ghost use Rattle.dl_text.specs.NameText.{AreBelow};

use crate::pieces::{Piece, print_pieces};
use dl_io::{Failed, Sink};
use dl_names::Names;
use dl_terms::Fact;

/// Writes a fact as a triple of N-Triples, with single spaces and its names in full. The numbers of names are below
/// `names.len()`. It takes no memory. Where a write failed, the sink got some first bytes of it.
pub fn print_fact<S: Sink>(sink: &mut S, fact: Fact, names: &Names) -> Result<(), Failed>
    requires { AreBelow (length names.now) (fact_names fact) }
    ensures { Prints S.got S.faults S.lent result sink.old sink.new (fact_text names.now fact) }
{
    match fact {
        Fact::Is { class, who } => print_pieces(
            sink,
            &[
                Piece::Name(who),
                Piece::Text(" <http://www.w3.org/1999/02/22-rdf-syntax-ns#type> "),
                Piece::Name(class),
                Piece::Text(" ."),
            ],
            names,
        ),
        Fact::Link { role, from, to } => print_pieces(
            sink,
            &[
                Piece::Name(from),
                Piece::Text(" "),
                Piece::Name(role),
                Piece::Text(" "),
                Piece::Name(to),
                Piece::Text(" ."),
            ],
            names,
        ),
    }
}
