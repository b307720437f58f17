// What becomes of a command, printed to a sink. It takes no memory.
ghost use Rattle.std.specs.Prelude.{◌≡◌, length, IsSome};
ghost use Rattle.std.specs.Option.{option_copied};
ghost use Rattle.dl_text.specs.NameText.{AreBelow};
ghost use Rattle.dl_stream.specs.Outcomes.{outcome_text, outcome_names, place_of, IsAtItsPin};
ghost use Rattle.dl_io.specs.Printing.{Prints};

use crate::answers::{put_answer, put_too_many};
use crate::reply::put_reply;
use dl_event::{Answer, AskFault, Placed};
use dl_io::{Failed, Sink};
use dl_names::Names;
use dl_text::{Piece, print_pieces};

/// What becomes of a command of a stream.
#[derive(Drop)]
pub enum Outcome {
    /// An event has its place in the history.
    Placed(Placed),
    /// A query is answered.
    Asked(Answer),
    /// A query has no answer.
    AskRefused(AskFault),
    /// The history is full.
    Spent,
    /// Want of memory, at an event.
    NoMemory,
}

/// Writes the lines of what becomes of a command: for a query with its limit and the pin of its stream. The pin is
/// there where the outcome tells a version, which is that of the pin. The numbers of names are below `names.len()`. It
/// takes no memory. Where a write failed, the sink got some first bytes of the lines.
pub fn print_outcome<S: Sink>(
    sink: &mut S,
    outcome: &Outcome,
    pinned: Option<&Placed>,
    limit: u64,
    names: &Names,
) -> Result<(), Failed>
    requires at_its_pin { IsAtItsPin (option_copied pinned) outcome.now }
    requires named { AreBelow (length names.now) (outcome_names outcome.now) }
    ensures { Prints S.got S.faults S.lent result sink.old sink.new
        (outcome_text names.now (option_copied pinned.entry) limit outcome.now) }
{
    match outcome {
        Outcome::Placed(placed) => put_reply(sink, placed.place, &placed.reply, names),
        Outcome::Asked(answer) => put_answer(sink, place_of(pinned), answer, names),
        Outcome::AskRefused(AskFault::TooMany { version }) => {
            put_too_many(sink, place_of(pinned), *version, limit, names)
        }
        Outcome::AskRefused(AskFault::NoPin) => {
            print_pieces(sink, &[Piece::Text("ask no pin\n")], names)
        }
        Outcome::AskRefused(AskFault::NoMemory) => {
            print_pieces(sink, &[Piece::Text("ask no memory\n")], names)
        }
        Outcome::Spent => print_pieces(sink, &[Piece::Text("spent\n")], names),
        Outcome::NoMemory => print_pieces(sink, &[Piece::Text("no memory\n")], names),
    }
}

/// The place of a pin that is there.
fn place_of(pinned: Option<&Placed>) -> u64
    requires { IsSome pinned }
    ensures { result ≡ place_of (option_copied pinned.entry) }
{
    pinned.unwrap().place
}
