// Parts of annotations that stand next.
ghost use Rattle.std.specs.Prelude.{◌↔◌, ◌≡◌, IsTrue, List};
ghost use Rattle.dl_names.specs.NameList.{Text};
ghost use Rattle.dl_owl.specs.Expected.{open_then, annotations_then, iri_then, subject_then, value_then, value_end};
ghost use Rattle.dl_owl.specs.Walk.{here, Passes};

use crate::cursor::{Cursor, close, is_word, open};
use crate::fault::OwlFault;
use crate::name::iri;
use crate::prefixes::Prefixes;
use dl_lex::{Keyword, TokenKind};

/// Passes over an IRI or a blank node, of which an annotation assertion speaks.
pub(crate) fn subject(
    at: &mut Cursor,
    prefixes: &Prefixes,
    text: &mut String,
) -> Result<(), OwlFault>
    ensures { (names : List Text) → Passes subject_then (here at.old prefixes.now names)
        (here at.new prefixes.now names) result }
{
    if at.is_node() {
        at.advance()?;
        return Ok(());
    }
    iri(at, prefixes, text)
}

/// Whether a string stands next.
fn is_string(at: &Cursor) -> bool
    ensures { IsTrue result ↔ (at.now.token.kind ≡ TokenKind.Text) }
{
    match at.kind() {
        TokenKind::Text => true,
        _ => false,
    }
}

/// Whether a language tag stands next.
fn is_language(at: &Cursor) -> bool
    ensures { IsTrue result ↔ (at.now.token.kind ≡ TokenKind.Lang) }
{
    match at.kind() {
        TokenKind::Lang => true,
        _ => false,
    }
}

/// Whether `^^` stands next.
fn is_caret(at: &Cursor) -> bool
    ensures { IsTrue result ↔ (at.now.token.kind ≡ TokenKind.Caret) }
{
    match at.kind() {
        TokenKind::Caret => true,
        _ => false,
    }
}

/// Passes over what may stand behind the string of a literal, and the `)` behind it.
fn literal_end(at: &mut Cursor, prefixes: &Prefixes, text: &mut String) -> Result<(), OwlFault>
    ensures { (names : List Text) → Passes value_end (here at.old prefixes.now names)
        (here at.new prefixes.now names) result }
{
    if at.is_close() {
        return close(at);
    }
    if is_language(at) {
        at.advance()?;
        return close(at);
    }
    let start = at.start();
    if !is_caret(at) {
        return Err(OwlFault::Syntax { at: start });
    }
    at.advance()?;
    iri(at, prefixes, text)?;
    close(at)
}

/// Passes over the value of an annotation, which is an IRI, a blank node or a literal, and the `)` behind it.
pub(crate) fn value(at: &mut Cursor, prefixes: &Prefixes, text: &mut String) -> Result<(), OwlFault>
    ensures { (names : List Text) → Passes value_then (here at.old prefixes.now names)
        (here at.new prefixes.now names) result }
{
    if at.is_node() {
        at.advance()?;
        return close(at);
    }
    if is_string(at) {
        at.advance()?;
        return literal_end(at, prefixes, text);
    }
    iri(at, prefixes, text)?;
    close(at)
}

/// Passes over `(` and the annotations behind it, each with those inside it. So many are open in one another as
/// parentheses may be.
pub(crate) fn begin(at: &mut Cursor, prefixes: &Prefixes, text: &mut String) -> Result<(), OwlFault>
    ensures { (names : List Text) → Passes (λ e. open_then (annotations_then e))
        (here at.old prefixes.now names) (here at.new prefixes.now names) result }
{
    open(at)?;
    while is_word(at, Keyword::Annotation) {
        at.advance()?;
        begin(at, prefixes, text)?;
        iri(at, prefixes, text)?;
        value(at, prefixes, text)?;
    }
    Ok(())
}
