// The prefix declarations of an ontology document.
ghost use Rattle.std.specs.Prelude.{◌≡◌, ◌↔◌, IsTrue, MatchOption, None, List};
ghost use Rattle.dl_names.specs.NameList.{Text};
ghost use Rattle.dl_owl.specs.Causes.{syntax};
ghost use Rattle.dl_owl.specs.Expected.{prologue, prefix_name, prefix_iri, title, open_then, close_then, goes, refuses, prefix_equals};
ghost use Rattle.dl_owl.specs.Prefixes.{declared_iri};
ghost use Rattle.dl_owl.specs.Steps.{prefix_name_next, prefix_iri_next};
ghost use Rattle.dl_owl.specs.Symbols.{full_iri};
ghost use Rattle.dl_owl.specs.Walk.{here, symbol_at};
ghost use Rattle.dl_owl.specs.Documents.{known_move, Leads};

use crate::cursor::{Cursor, close, is_word, open};
use crate::fault::OwlFault;
use crate::prefixes::Prefixes;
use dl_lex::{Keyword, TokenKind};

/// What is known of a prefix name that is declared.
#[derive(Clone, Copy)]
enum Known {
    /// It isn't declared.
    New,
    /// It stands for this IRI.
    Same,
    /// It stands for another IRI.
    Differs,
}

/// Whether `=` stands next.
fn is_equals(at: &Cursor) -> bool
    ensures { IsTrue result ↔ (at.now.token.kind ≡ TokenKind.Equals) }
{
    match at.kind() {
        TokenKind::Equals => true,
        _ => false,
    }
}

/// Whether an IRI in full stands next.
fn is_full_iri(at: &Cursor) -> bool
    ensures { IsTrue result ↔ (at.now.token.kind ≡ TokenKind.Iri) }
{
    match at.kind() {
        TokenKind::Iri => true,
        _ => false,
    }
}

/// The prefix name that stands next, without its colon, if one does.
fn prefix_name<'a>(at: &Cursor<'a>) -> Option<&'a str>
    ensures { MatchOption result (prefix_name_next (symbol_at at.now) ≡ refuses syntax)
        (λ name. (at.now.token.kind ≡ TokenKind.Short)
        × (prefix_name_next (symbol_at at.now) ≡ goes (prefix_equals name.now))) }
{
    match at.kind() {
        TokenKind::Short => {
            let (name, local) = at.short_iri();
            if !local.is_empty() {
                return None;
            }
            Some(name)
        }
        _ => None,
    }
}

/// What is known of a prefix name, where it is declared to stand for an IRI.
fn knowledge(prefixes: &Prefixes, name: &str, iri: &str) -> Known
    ensures fits { prefix_iri_next prefixes.now name.now (full_iri iri.now) ≡ known_move result name.now iri.now }
    ensures new { result ≡ Known.New → declared_iri prefixes.now name.now ≡ None }
{
    match prefixes.get(name) {
        None => Known::New,
        Some(old) => {
            if old == iri {
                return Known::Same;
            }
            Known::Differs
        }
    }
}

/// Declares that a prefix name stands for the IRI that stands next.
fn declare(at: &mut Cursor, prefixes: &mut Prefixes, name: &str) -> Result<(), OwlFault>
    ensures { (names : List Text) → Leads (prefix_iri name.now) (close_then prologue)
        (here at.old prefixes.old names) (here at.new prefixes.new names) result }
{
    let start = at.start();
    if !is_full_iri(at) {
        return Err(OwlFault::Syntax { at: start });
    }
    let iri = at.full_iri();
    match knowledge(prefixes, name, iri) {
        Known::Differs => Err(OwlFault::Syntax { at: start }),
        Known::Same => {
            at.advance()?;
            Ok(())
        }
        Known::New => {
            at.advance()?;
            prefixes.add(name, iri)?;
            Ok(())
        }
    }
}

/// A prefix declaration behind its keyword.
fn declaration(at: &mut Cursor, prefixes: &mut Prefixes) -> Result<(), OwlFault>
    ensures { (names : List Text) → Leads (open_then prefix_name) prologue
        (here at.old prefixes.old names) (here at.new prefixes.new names) result }
{
    open(at)?;
    let start = at.start();
    let Some(name) = prefix_name(at) else {
        return Err(OwlFault::Syntax { at: start });
    };
    at.advance()?;
    let behind = at.start();
    if !is_equals(at) {
        return Err(OwlFault::Syntax { at: behind });
    }
    at.advance()?;
    declare(at, prefixes, name)?;
    close(at)
}

/// The prefix declarations, and `Ontology` behind them.
pub(crate) fn prologue(at: &mut Cursor, prefixes: &mut Prefixes) -> Result<(), OwlFault>
    ensures { (names : List Text) → Leads prologue (open_then (title 2))
        (here at.old prefixes.old names) (here at.new prefixes.new names) result }
{
    while is_word(at, Keyword::Prefix) {
        at.advance()?;
        declaration(at, prefixes)?;
    }
    let start = at.start();
    if !is_word(at, Keyword::Ontology) {
        return Err(OwlFault::Syntax { at: start });
    }
    at.advance()?;
    Ok(())
}
