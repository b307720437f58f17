// Class expressions of a right side that stand next.
ghost use Rattle.std.specs.Prelude.{◌≡◌, []};
ghost use Rattle.dl_terms.specs.declared.axiom.Part.TheVariants.{Not};
ghost use Rattle.dl_owl.specs.Expected.{open_then, close_then, role_then, filler_then, sub_then, sup_then, sups_close};
ghost use Rattle.dl_owl.specs.Series.{ReadsOne, Appends};
ghost use Rattle.dl_owl.specs.Walk.{here, Reads};

use crate::class::filler;
use crate::cursor::{Cursor, close, is_word, open};
use crate::fault::OwlFault;
use crate::left::sub;
use crate::name::class_or_thing;
use crate::prefixes::Prefixes;
use crate::refused::refused_sup;
use crate::role::role;
use dl_lex::{Keyword, TokenKind};
use dl_names::NameSet;
use dl_terms::{List, Part};
use std::alloc::Global;

/// What has a neighbour by a role, in a class if one is named, behind its keyword.
pub(crate) fn some_part(
    at: &mut Cursor,
    prefixes: &Prefixes,
    names: &mut NameSet,
    text: &mut String,
) -> Result<Part, OwlFault>
    ensures { Reads (λ k. open_then (role_then (λ r. filler_then r (λ part. close_then (k part)))))
        (here at.old prefixes.now names.old) (here at.new prefixes.now names.new) result }
{
    open(at)?;
    let over = role(at, prefixes, names, text)?;
    let part = filler(at, prefixes, names, text, over)?;
    close(at)?;
    Ok(part)
}

/// The complement of a class expression of a left side, behind its keyword.
pub(crate) fn complement(
    at: &mut Cursor,
    prefixes: &Prefixes,
    names: &mut NameSet,
    text: &mut String,
) -> Result<Part, OwlFault>
    ensures { Reads (λ k. open_then (sub_then (λ b. close_then (k (Not b)))))
        (here at.old prefixes.now names.old) (here at.new prefixes.now names.new) result }
{
    open(at)?;
    let inner = sub(at, prefixes, names, text)?;
    close(at)?;
    Ok(Part::Not(inner))
}

/// The class expression of a right side that stands next and is no intersection.
fn part(
    at: &mut Cursor,
    prefixes: &Prefixes,
    names: &mut NameSet,
    text: &mut String,
) -> Result<Part, OwlFault>
    ensures { (at.old.token.kind ≡ TokenKind.Word Keyword.ObjectIntersectionOf → ⊥)
        → ReadsOne sup_then (here at.old prefixes.now names.old)
        (here at.new prefixes.now names.new) result }
{
    let start = at.start();
    if is_word(at, Keyword::ObjectSomeValuesFrom) {
        at.advance()?;
        return some_part(at, prefixes, names, text);
    }
    if is_word(at, Keyword::ObjectComplementOf) {
        at.advance()?;
        return complement(at, prefixes, names, text);
    }
    if let Some(word) = at.keyword() {
        return Err(refused_sup(word, start));
    }
    match class_or_thing(at, prefixes, names, text, OwlFault::Syntax { at: start })? {
        None => Ok(Part::Thing),
        Some(class) => Ok(Part::Class(class)),
    }
}

/// Puts the class expression of a right side that stands next and is no intersection behind the parts before.
fn add_part(
    at: &mut Cursor,
    prefixes: &Prefixes,
    names: &mut NameSet,
    text: &mut String,
    parts: &mut List<Part>,
) -> Result<(), OwlFault>
    ensures { (at.old.token.kind ≡ TokenKind.Word Keyword.ObjectIntersectionOf → ⊥)
        → Appends sup_then (here at.old prefixes.now names.old)
        (here at.new prefixes.now names.new) parts.old parts.new result }
{
    let next = part(at, prefixes, names, text)?;
    parts.push(next)?;
    Ok(())
}

/// Puts the parts of the class expression of a right side that stands next behind those before. It calls itself as deep
/// as parentheses may be open.
#[cycle(parts)]
fn add_parts(
    at: &mut Cursor,
    prefixes: &Prefixes,
    names: &mut NameSet,
    text: &mut String,
    parts: &mut List<Part>,
) -> Result<(), OwlFault>
    ensures { Appends sup_then (here at.old prefixes.now names.old)
        (here at.new prefixes.now names.new) parts.old parts.new result }
{
    if !is_word(at, Keyword::ObjectIntersectionOf) {
        return add_part(at, prefixes, names, text, parts);
    }
    at.advance()?;
    intersection(at, prefixes, names, text, parts)
}

/// Puts the parts of an intersection, behind its keyword, behind those before.
#[cycle(parts)]
fn intersection(
    at: &mut Cursor,
    prefixes: &Prefixes,
    names: &mut NameSet,
    text: &mut String,
    parts: &mut List<Part>,
) -> Result<(), OwlFault>
    ensures { Appends (λ k. open_then (sups_close 2 [] k)) (here at.old prefixes.now names.old)
        (here at.new prefixes.now names.new) parts.old parts.new result }
{
    open(at)?;
    add_parts(at, prefixes, names, text, parts)?;
    add_parts(at, prefixes, names, text, parts)?;
    while !at.is_close() {
        add_parts(at, prefixes, names, text, parts)?;
    }
    close(at)
}

/// The class expression of a right side that stands next, as its parts from left to right.
pub(crate) fn sup(
    alloc: Global,
    at: &mut Cursor,
    prefixes: &Prefixes,
    names: &mut NameSet,
    text: &mut String,
) -> Result<List<Part>, OwlFault>
    ensures { Reads sup_then (here at.old prefixes.now names.old)
        (here at.new prefixes.now names.new) result }
{
    let mut parts = List::new(alloc);
    add_parts(at, prefixes, names, text, &mut parts)?;
    Ok(parts)
}
