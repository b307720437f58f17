// Entities of declarations that stand next.
ghost use Rattle.std.specs.Prelude.{◌≡◌, List};
ghost use Rattle.dl_names.specs.NameList.{Text};
ghost use Rattle.dl_owl.specs.declared.item.Item.{Item};
ghost use Rattle.dl_owl.specs.declared.item.Item.TheVariants.{Role as role_item, NoEffect as no_effect};
ghost use Rattle.dl_owl.specs.Axioms.{is_other_entity};
ghost use Rattle.dl_owl.specs.Expected.{Expected, open_then, close_then, iri_then, property_then, declared_class, entity_then};
ghost use Rattle.dl_owl.specs.Steps.{class_declared, entity_next};
ghost use Rattle.dl_owl.specs.Walk.{here, symbol_at, Reads};
ghost use Rattle.dl_owl.specs.Entities.{entity_move};

use crate::class::declared_class;
use crate::cursor::{Cursor, close, open};
use crate::fault::OwlFault;
use crate::item::Item;
use crate::name::{iri, property};
use crate::prefixes::Prefixes;
use dl_lex::{Keyword, TokenKind};
use dl_names::NameSet;

/// What a keyword declares.
#[derive(Clone, Copy)]
enum EntityKind {
    Class,
    Property,
    /// What is declared without effect.
    Other,
    /// Nothing.
    Unknown,
}

/// Whether a keyword is that of an entity that is declared without effect.
fn is_other_entity(keyword: Keyword) -> bool
    ensures { result ≡ is_other_entity keyword }
{
    match keyword {
        Keyword::NamedIndividual
        | Keyword::AnnotationProperty
        | Keyword::Datatype
        | Keyword::DataProperty => true,
        _ => false,
    }
}

/// What the keyword that stands next declares.
fn stands_entity(at: &Cursor) -> EntityKind
    ensures { (k : Item → Expected) → entity_next k (symbol_at at.now) ≡ entity_move result k }
{
    match at.kind() {
        TokenKind::Word(Keyword::Class) => EntityKind::Class,
        TokenKind::Word(Keyword::ObjectProperty) => EntityKind::Property,
        TokenKind::Word(keyword) => {
            if is_other_entity(keyword) {
                return EntityKind::Other;
            }
            EntityKind::Unknown
        }
        _ => EntityKind::Unknown,
    }
}

/// The class that is declared, behind its keyword.
fn class_entity(
    at: &mut Cursor,
    prefixes: &Prefixes,
    names: &mut NameSet,
    text: &mut String,
) -> Result<Item, OwlFault>
    ensures { Reads (λ k. open_then (declared_class (λ c. close_then (k (class_declared c)))))
        (here at.old prefixes.now names.old) (here at.new prefixes.now names.new) result }
{
    open(at)?;
    let class = declared_class(at, prefixes, names, text)?;
    close(at)?;
    match class {
        Some(place) => Ok(Item::Class(place)),
        None => Ok(Item::NoEffect),
    }
}

/// The object property that is declared, behind its keyword.
fn property_entity(
    at: &mut Cursor,
    prefixes: &Prefixes,
    names: &mut NameSet,
    text: &mut String,
) -> Result<Item, OwlFault>
    ensures { Reads (λ k. open_then (property_then (λ n. close_then (k (role_item n)))))
        (here at.old prefixes.now names.old) (here at.new prefixes.now names.new) result }
{
    open(at)?;
    let place = property(at, prefixes, names, text)?;
    close(at)?;
    Ok(Item::Role(place))
}

/// What is declared without effect, behind its keyword.
fn other_entity(at: &mut Cursor, prefixes: &Prefixes, text: &mut String) -> Result<Item, OwlFault>
    ensures { (names : List Text) → Reads (λ k. open_then (iri_then (close_then (k no_effect))))
        (here at.old prefixes.now names) (here at.new prefixes.now names) result }
{
    open(at)?;
    iri(at, prefixes, text)?;
    close(at)?;
    Ok(Item::NoEffect)
}

/// The entity of a declaration that stands next.
pub(crate) fn entity(
    at: &mut Cursor,
    prefixes: &Prefixes,
    names: &mut NameSet,
    text: &mut String,
) -> Result<Item, OwlFault>
    ensures { Reads entity_then (here at.old prefixes.now names.old)
        (here at.new prefixes.now names.new) result }
{
    let start = at.start();
    match stands_entity(at) {
        EntityKind::Class => {
            at.advance()?;
            class_entity(at, prefixes, names, text)
        }
        EntityKind::Property => {
            at.advance()?;
            property_entity(at, prefixes, names, text)
        }
        EntityKind::Other => {
            at.advance()?;
            other_entity(at, prefixes, text)
        }
        EntityKind::Unknown => Err(OwlFault::Syntax { at: start }),
    }
}
