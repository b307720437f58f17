// Classes and fillers that stand next.
ghost use Rattle.std.specs.Prelude.{◌≡◌, List, if◌then◌else◌};
ghost use Rattle.dl_lex.specs.declared.keyword.Keyword.{Keyword};
ghost use Rattle.dl_names.specs.NameList.{Text};
ghost use Rattle.dl_owl.specs.declared.fault.Construct.TheVariants.{Thing};
ghost use Rattle.dl_owl.specs.Causes.{syntax, not_ql, left_out, fault_of};
ghost use Rattle.dl_owl.specs.Expected.{refuses, thing_then, filler_then, class_then, declared_class};
ghost use Rattle.dl_owl.specs.Refused.{begins_class};
ghost use Rattle.dl_owl.specs.Steps.{refused_class, class_or_thing};
ghost use Rattle.dl_owl.specs.Walk.{here, symbol_at, Follows, Passes, Reads};

use crate::cursor::Cursor;
use crate::fault::{Construct, OwlFault};
use crate::name::{class_or_thing, expect_iri, is_thing, take_class};
use crate::prefixes::Prefixes;
use dl_lex::{Keyword, TokenKind};
use dl_names::NameSet;
use dl_terms::{Part, Role};

/// Whether a keyword begins a class expression of OWL 2.
fn begins_class(keyword: Keyword) -> bool
    ensures { result ≡ begins_class keyword }
{
    match keyword {
        Keyword::ObjectIntersectionOf
        | Keyword::ObjectUnionOf
        | Keyword::ObjectComplementOf
        | Keyword::ObjectOneOf
        | Keyword::ObjectSomeValuesFrom
        | Keyword::ObjectAllValuesFrom
        | Keyword::ObjectHasValue
        | Keyword::ObjectHasSelf
        | Keyword::ObjectMinCardinality
        | Keyword::ObjectMaxCardinality
        | Keyword::ObjectExactCardinality
        | Keyword::DataSomeValuesFrom
        | Keyword::DataAllValuesFrom
        | Keyword::DataHasValue
        | Keyword::DataMinCardinality
        | Keyword::DataMaxCardinality
        | Keyword::DataExactCardinality => true,
        _ => false,
    }
}

/// Whether the next token begins a class expression of OWL 2 by its keyword.
fn stands_class(at: &Cursor) -> bool
    ensures { (word : Keyword) → refused_class word (symbol_at at.now)
        ≡ (if result then not_ql word else syntax) }
{
    match at.kind() {
        TokenKind::Word(keyword) => begins_class(keyword),
        _ => false,
    }
}

/// The fault of a token that is no IRI, where the construct of this keyword wants a class.
fn no_class(at: &Cursor, word: Keyword) -> OwlFault
    ensures { result ≡ fault_of (refused_class word (symbol_at at.now)) at.now.token.start }
{
    let start = at.start();
    if stands_class(at) {
        return OwlFault::NotQl {
            at: start,
            what: Construct::Keyword(word),
        };
    }
    OwlFault::Syntax { at: start }
}

/// The part of a right side that a role and the filler that stands next make.
pub(crate) fn filler(
    at: &mut Cursor,
    prefixes: &Prefixes,
    names: &mut NameSet,
    text: &mut String,
    role: Role,
) -> Result<Part, OwlFault>
    ensures { Reads (filler_then role) (here at.old prefixes.now names.old)
        (here at.new prefixes.now names.new) result }
{
    let other = no_class(at, Keyword::ObjectSomeValuesFrom);
    match class_or_thing(at, prefixes, names, text, other)? {
        None => Ok(Part::Any(role)),
        Some(class) => Ok(Part::Fill(role, class)),
    }
}

/// Passes over `owl:Thing`, the filler of a left side.
pub(crate) fn thing(at: &mut Cursor, prefixes: &Prefixes, text: &mut String) -> Result<(), OwlFault>
    ensures { (names : List Text) → Passes thing_then (here at.old prefixes.now names)
        (here at.new prefixes.now names) result }
{
    let other = no_class(at, Keyword::ObjectSomeValuesFrom);
    let start = at.start();
    expect_iri(at, prefixes, text, other)?;
    let iri = text.as_str();
    if !is_thing(iri) {
        return Err(OwlFault::NotQl {
            at: start,
            what: Construct::Keyword(Keyword::ObjectSomeValuesFrom),
        });
    }
    at.advance()?;
    Ok(())
}

/// The class of a left side that stands next.
pub(crate) fn named_class(
    at: &mut Cursor,
    prefixes: &Prefixes,
    names: &mut NameSet,
    text: &mut String,
) -> Result<u32, OwlFault>
    ensures { Follows (λ k. class_or_thing prefixes.now (refuses (left_out Thing)) k (refuses syntax)
        (symbol_at at.old))
        (here at.old prefixes.now names.old) (here at.new prefixes.now names.new) result }
{
    let start = at.start();
    expect_iri(at, prefixes, text, OwlFault::Syntax { at: start })?;
    let iri = text.as_str();
    if is_thing(iri) {
        return Err(OwlFault::LeftOut {
            at: start,
            what: Construct::Thing,
        });
    }
    take_class(at, names, iri)
}

/// The class of an assertion that stands next, none where it is `owl:Thing`.
pub(crate) fn asserted_class(
    at: &mut Cursor,
    prefixes: &Prefixes,
    names: &mut NameSet,
    text: &mut String,
) -> Result<Option<u32>, OwlFault>
    ensures { Reads class_then (here at.old prefixes.now names.old)
        (here at.new prefixes.now names.new) result }
{
    let other = no_class(at, Keyword::ClassAssertion);
    class_or_thing(at, prefixes, names, text, other)
}

/// The class of a declaration that stands next, none where it is `owl:Thing`.
pub(crate) fn declared_class(
    at: &mut Cursor,
    prefixes: &Prefixes,
    names: &mut NameSet,
    text: &mut String,
) -> Result<Option<u32>, OwlFault>
    ensures { Reads declared_class (here at.old prefixes.now names.old)
        (here at.new prefixes.now names.new) result }
{
    let start = at.start();
    class_or_thing(at, prefixes, names, text, OwlFault::Syntax { at: start })
}
