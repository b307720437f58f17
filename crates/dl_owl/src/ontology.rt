// Ontology documents.
ghost use Rattle.std.specs.Prelude.{◌≡◌, ℕ, suc, List, if◌then◌else◌};
ghost use Rattle.dl_names.specs.NameList.{Text};
ghost use Rattle.dl_owl.specs.Documents.{Ends, Finishes, Leads};
ghost use Rattle.dl_owl.specs.Expected.{prologue, title, annotations_first, items, lone_axiom, finish, open_then, iri_then};
ghost use Rattle.dl_owl.specs.Items.{empty_document};
ghost use Rattle.dl_owl.specs.Prefixes.{Prefixes, predefined};
ghost use Rattle.dl_owl.specs.Steps.{move_of};
ghost use Rattle.dl_owl.specs.Walk.{here, symbol_at};

use crate::annotation::{begin, value};
use crate::axiom::axiom;
use crate::cursor::{Cursor, close, is_word, open};
use crate::document::Document;
use crate::fault::{Construct, OwlFault};
use crate::name::iri;
use crate::prefixes::Prefixes;
use crate::prologue::prologue;
use dl_lex::{Keyword, TokenKind};
use dl_names::NameSet;
use std::alloc::Global;

/// Whether an IRI stands next, in full or short.
fn is_iri(at: &Cursor) -> bool
    ensures { (p : Prefixes) (n : ℕ) → move_of p (title (suc n)) (symbol_at at.now)
        ≡ (if result then move_of p (iri_then (title n)) (symbol_at at.now)
        else move_of p annotations_first (symbol_at at.now)) }
{
    match at.kind() {
        TokenKind::Iri => true,
        TokenKind::Short => true,
        _ => false,
    }
}

/// Passes over `(` and the IRIs of an ontology, of which there may be two.
fn title(at: &mut Cursor, prefixes: &Prefixes, text: &mut String) -> Result<(), OwlFault>
    ensures { (names : List Text) → Leads (open_then (title 2)) annotations_first
        (here at.old prefixes.now names) (here at.new prefixes.now names) result }
{
    open(at)?;
    if !is_iri(at) {
        return Ok(());
    }
    iri(at, prefixes, text)?;
    if !is_iri(at) {
        return Ok(());
    }
    iri(at, prefixes, text)?;
    Ok(())
}

/// Passes over `(`, the IRIs and the annotations of an ontology.
fn head(at: &mut Cursor, prefixes: &Prefixes, text: &mut String) -> Result<(), OwlFault>
    ensures { (names : List Text) → Leads (open_then (title 2)) (items empty_document)
        (here at.old prefixes.now names) (here at.new prefixes.now names) result }
{
    title(at, prefixes, text)?;
    while is_word(at, Keyword::Annotation) {
        at.advance()?;
        begin(at, prefixes, text)?;
        iri(at, prefixes, text)?;
        value(at, prefixes, text)?;
    }
    Ok(())
}

/// The axioms of an ontology, and the `)` behind them.
fn items(
    alloc: Global,
    at: &mut Cursor,
    prefixes: &Prefixes,
    names: &mut NameSet,
    text: &mut String,
) -> Result<Document, OwlFault>
    ensures { Finishes (items empty_document) (here at.old prefixes.now names.old)
        (here at.new prefixes.now names.new) result }
{
    let mut document = Document::new(alloc);
    'stated: while !at.is_close() {
        let start = at.start();
        if is_word(at, Keyword::Import) {
            return Err(OwlFault::LeftOut {
                at: start,
                what: Construct::Keyword(Keyword::Import),
            });
        }
        let item = axiom(alloc, at, prefixes, names, text)?;
        document.add(item)?;
    }
    close(at)?;
    Ok(document)
}

/// The document, where the text ends.
pub(crate) fn end(at: &Cursor, document: Document) -> Result<Document, OwlFault>
    ensures { (p : Prefixes) (names : List Text)
        → Ends (finish document) (here at.now p names) names result }
{
    match at.kind() {
        TokenKind::End => Ok(document),
        _ => {
            let start = at.start();
            Err(OwlFault::Syntax { at: start })
        }
    }
}

/// An ontology document, up to the end of the text.
pub(crate) fn whole(
    alloc: Global,
    at: &mut Cursor,
    names: &mut NameSet,
) -> Result<Document, OwlFault>
    ensures { Ends prologue (here at.old predefined names.old) names.new result }
{
    let mut prefixes = Prefixes::new(alloc)?;
    let mut text = String::new(alloc);
    prologue(at, &mut prefixes)?;
    head(at, &prefixes, &mut text)?;
    let document = items(alloc, at, &prefixes, names, &mut text)?;
    end(at, document)
}

/// One axiom alone, up to the end of the text.
pub(crate) fn lone(
    alloc: Global,
    at: &mut Cursor,
    names: &mut NameSet,
) -> Result<Document, OwlFault>
    ensures { Ends lone_axiom (here at.old predefined names.old) names.new result }
{
    let prefixes = Prefixes::new(alloc)?;
    let mut text = String::new(alloc);
    let item = axiom(alloc, at, &prefixes, names, &mut text)?;
    let mut document = Document::new(alloc);
    document.add(item)?;
    end(at, document)
}
