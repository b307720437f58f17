// Reads a stream file line by line.
ghost use Rattle.std.specs.Prelude.{◌≡◌, ◌≢◌, ◌⊎◌, ◌≤◌, ℕ, List, All, length, sum_by, MatchResult, IfOk, IfErr, OnErr, IsOk};
ghost use Rattle.dl_names.specs.NameList.{Text, Extends};
ghost use Rattle.dl_stream.specs.declared.streams.Command.{Command};
ghost use Rattle.dl_stream.specs.declared.fault.StreamFault.{StreamFault};
ghost use Rattle.dl_stream.specs.Reading as reading;
ghost use Rattle.dl_stream.specs.Forms as forms;
ghost use Rattle.dl_stream.specs.Commands.{CommandBelow, IsFit};
ghost use Rattle.dl_stream.specs.Parts.{shown, IsCountedAt, ToldAt, GivesTo, Ends};
ghost use Rattle.dl_stream.specs.Reading.{HasFault};

use crate::cut::first_line;
use crate::fault::{Kind, StreamFault};
use crate::form::form_of;
use crate::place::Place;
use crate::said::{line_then, misplaced};
use crate::streams::Streams;
use dl_names::NameSet;
use dl_terms::List;
use std::alloc::Global;

/// Reads a stream file: the commands of each stream. Lines end by CR LF, LF or the end of the bytes, and are counted
/// from 1. Empty lines and lines that begin with `#` are passed over. After `Ok` the names are those before and then
/// those of the text, by first occurrence.
///
/// The fault is that of the first line that has one: `Form` where it has none of the forms, where what it says may not
/// stand there, or where a number is out of range; else `TooManyStreams` at the 65th stream and `TooManyCommands` at
/// the 1,048,577th command; else `Axiom`, `Triple` or `Query` where the reader of that part refuses it, and
/// `TooManyNames` where that reader says so. `NotEnded` comes only where no line has a fault and the bytes end inside a
/// commit: it tells the line at which the commit begins. Memory is all else that may be wanting. After an error the
/// names are those before, those of some first lines, and maybe more of the next one.
pub fn read_streams(
    alloc: Global,
    bytes: &[u8],
    names: &mut NameSet,
) -> Result<Streams, StreamFault>
    ensures value { IfOk result (λ streams. reading.IsValue bytes.now names.old streams.lists names.new) }
    ensures fault { IfErr result (λ fault. fault ≢ StreamFault.NoMemory →
        reading.IsFirstFault bytes.now names.old fault) }
    ensures value_read { (lists : List (List Command)) (after : List Text) →
        reading.IsValue bytes.now names.old lists after →
        MatchResult result (λ streams. (streams.lists ≡ lists) × (names.new ≡ after))
        (λ fault. fault ≡ StreamFault.NoMemory) }
    ensures fault_told { (first : StreamFault) → reading.IsFirstFault bytes.now names.old first →
        IfErr result (λ fault. (fault ≡ first) ⊎ (fault ≡ StreamFault.NoMemory))
        × (IsOk result → ⊥) }
    ensures places { IfOk result (λ streams. All (All (CommandBelow (length names.new))) streams.lists) }
    ensures fit { IfOk result (λ streams. All (All IsFit) streams.lists) }
    ensures few { IfOk result (λ streams. length streams.lists ≤ reading.max_streams) }
    ensures fewer { IfOk result (λ streams. sum_by length streams.lists ≤ reading.max_commands) }
    ensures grows { Extends names.old names.new }
    ensures part { OnErr result (reading.HoldsPart bytes.now names.old names.new) }
{
    let mut place = Place::Outside;
    let mut rest = bytes;
    let mut n = 1u64;
    'lines: loop {
        let (line, behind) = first_line(rest);
        place = read_line(alloc, line, n, names, place)?;
        let Some(next) = behind else {
            return streams_at(alloc, place);
        };
        rest = next;
        n += 1;
    }
}

/// The streams at the end of the bytes.
fn streams_at(alloc: Global, place: Place) -> Result<Streams, StreamFault>
    ensures { Ends (shown place) result }
{
    match place {
        Place::Outside => Ok(Streams {
            lists: List::new(alloc),
        }),
        Place::InStream(stream) => {
            let mut lists = stream.before;
            let Ok(()) = lists.push(stream.commands) else {
                return Err(StreamFault::NoMemory);
            };
            Ok(Streams { lists })
        }
        Place::InCommit { at, .. } => Err(StreamFault::Line {
            n: at,
            kind: Kind::NotEnded,
        }),
    }
}

/// The place behind a line with this number.
fn read_line(
    alloc: Global,
    line: &[u8],
    n: u64,
    names: &mut NameSet,
    place: Place,
) -> Result<Place, StreamFault>
    requires { IsCountedAt place }
    ensures ok { IfOk result (λ next. GivesTo line.now n names.old (shown place) next names.new) }
    ensures fault { IfErr result (ToldAt n (HasFault line.now names.old (shown place))) }
    ensures grows { Extends names.old names.new }
{
    if is_passed(line) {
        return Ok(place);
    }
    match form_of(line) {
        Some(form) => line_then(alloc, form, n, names, place),
        None => Err(misplaced(n)),
    }
}

/// Whether a line is passed over.
fn is_passed(line: &[u8]) -> bool
    ensures { result ≡ forms.is_passed line.now }
{
    match line.first() {
        Some(byte) => *byte == b'#',
        None => true,
    }
}
