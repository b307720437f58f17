// Names that stand next, and are taken at their places.
ghost use Rattle.std.specs.Prelude.{◌≡◌, Some, None, List, string_bytes};
ghost use Rattle.dl_names.specs.NameList.{Text};
ghost use Rattle.std.specs.Str.{bytes_eq};
ghost use Rattle.dl_owl.specs.Prefixes.{Prefixes};
ghost use Rattle.dl_owl.specs.NamesNext.{IsIri, owl_thing};
ghost use Rattle.dl_names.specs.Iris.{is_free, may_be_class};
ghost use Rattle.dl_owl.specs.Causes.{Cause, fault_of};
ghost use Rattle.dl_owl.specs.Expected.{goes, takes_name, refuses, iri_then, property_then, individual_then, unnamed_then};
ghost use Rattle.dl_owl.specs.Steps.{name_next, named_next, class_or_thing, refused_individual};
ghost use Rattle.dl_owl.specs.Walk.{here, symbol_at, Follows, Expects, Passes, Reads};

use crate::cursor::Cursor;
use crate::fault::{Construct, OwlFault};
use crate::iri::{Found, find_iri};
use crate::prefixes::Prefixes;
use dl_names::{NameFault, NameSet, is_free, may_be_class};

const OWL_THING: &str = "http://www.w3.org/2002/07/owl#Thing";

/// Takes the next token as a name, where it is an IRI of this text.
fn take_name(at: &mut Cursor, names: &mut NameSet, text: &str) -> Result<u32, OwlFault>
    ensures { (p : Prefixes) → IsIri p (symbol_at at.old) text.now
        → Follows (takes_name text.now) (here at.old p names.old) (here at.new p names.new) result }
{
    let start = at.start();
    let place = match names.add(text) {
        Ok(place) => place,
        Err(NameFault::Full) => return Err(OwlFault::TooManyNames { at: start }),
        Err(NameFault::NoMemory) => return Err(OwlFault::NoMemory),
    };
    at.advance()?;
    Ok(place)
}

/// Takes the next token as the name of an object property or of an individual, where it is an IRI of this text.
pub(crate) fn take_free(at: &mut Cursor, names: &mut NameSet, text: &str) -> Result<u32, OwlFault>
    ensures { (p : Prefixes) → IsIri p (symbol_at at.old) text.now
        → Follows (λ k. name_next is_free text.now k) (here at.old p names.old) (here at.new p names.new) result }
{
    if !is_free(text) {
        let start = at.start();
        return Err(OwlFault::Reserved { at: start });
    }
    take_name(at, names, text)
}

/// Takes the next token as the name of a class, where it is an IRI of this text.
pub(crate) fn take_class(at: &mut Cursor, names: &mut NameSet, text: &str) -> Result<u32, OwlFault>
    ensures { (p : Prefixes) → IsIri p (symbol_at at.old) text.now
        → Follows (λ k. name_next may_be_class text.now k) (here at.old p names.old) (here at.new p names.new) result }
{
    if !may_be_class(text) {
        let start = at.start();
        return Err(OwlFault::Reserved { at: start });
    }
    take_name(at, names, text)
}

/// Whether this is the IRI of `owl:Thing`.
pub(crate) fn is_thing(text: &str) -> bool
    ensures { result ≡ bytes_eq owl_thing text.now }
{
    OWL_THING == text
}

/// Writes out the IRI that stands next; where the token is none, it is this fault.
pub(crate) fn expect_iri(
    at: &Cursor,
    prefixes: &Prefixes,
    text: &mut String,
    other: OwlFault,
) -> Result<(), OwlFault>
    ensures { Expects at.now prefixes.now (string_bytes text.new) other result }
{
    let start = at.start();
    let found = find_iri(at, prefixes, text)?;
    match found {
        Found::Iri => Ok(()),
        Found::Unknown => Err(OwlFault::PrefixUnknown { at: start }),
        Found::Other => Err(other),
    }
}

/// Passes over an IRI that stands next.
pub(crate) fn iri(at: &mut Cursor, prefixes: &Prefixes, text: &mut String) -> Result<(), OwlFault>
    ensures { (names : List Text) → Passes iri_then (here at.old prefixes.now names)
        (here at.new prefixes.now names) result }
{
    let start = at.start();
    expect_iri(at, prefixes, text, OwlFault::Syntax { at: start })?;
    at.advance()?;
    Ok(())
}

/// The place of the free name that stands next; where the token is no IRI, it is this fault.
fn named(
    at: &mut Cursor,
    prefixes: &Prefixes,
    names: &mut NameSet,
    text: &mut String,
    other: OwlFault,
) -> Result<u32, OwlFault>
    ensures { (cause : Cause) → other ≡ fault_of cause at.old.token.start
        → Follows (λ k. named_next prefixes.now is_free k (refuses cause) (symbol_at at.old))
        (here at.old prefixes.now names.old) (here at.new prefixes.now names.new) result }
{
    expect_iri(at, prefixes, text, other)?;
    take_free(at, names, text.as_str())
}

/// The place of the object property that stands next.
pub(crate) fn property(
    at: &mut Cursor,
    prefixes: &Prefixes,
    names: &mut NameSet,
    text: &mut String,
) -> Result<u32, OwlFault>
    ensures { Reads property_then (here at.old prefixes.now names.old)
        (here at.new prefixes.now names.new) result }
{
    let start = at.start();
    named(at, prefixes, names, text, OwlFault::Syntax { at: start })
}

/// The fault of a token that is no IRI, where an individual is expected.
pub(crate) fn no_individual(at: &Cursor) -> OwlFault
    ensures { result ≡ fault_of (refused_individual (symbol_at at.now)) at.now.token.start }
{
    let start = at.start();
    if at.is_node() {
        return OwlFault::LeftOut {
            at: start,
            what: Construct::AnonymousIndividual,
        };
    }
    OwlFault::Syntax { at: start }
}

/// The place of the individual that stands next.
pub(crate) fn individual(
    at: &mut Cursor,
    prefixes: &Prefixes,
    names: &mut NameSet,
    text: &mut String,
) -> Result<u32, OwlFault>
    ensures { Reads individual_then (here at.old prefixes.now names.old)
        (here at.new prefixes.now names.new) result }
{
    let other = no_individual(at);
    named(at, prefixes, names, text, other)
}

/// Passes over an individual that is not named by it.
pub(crate) fn unnamed(
    at: &mut Cursor,
    prefixes: &Prefixes,
    text: &mut String,
) -> Result<(), OwlFault>
    ensures { (names : List Text) → Passes unnamed_then (here at.old prefixes.now names)
        (here at.new prefixes.now names) result }
{
    let other = no_individual(at);
    let start = at.start();
    expect_iri(at, prefixes, text, other)?;
    let iri = text.as_str();
    if !is_free(iri) {
        return Err(OwlFault::Reserved { at: start });
    }
    at.advance()?;
    Ok(())
}

/// The class that stands next, none where it is `owl:Thing`; where the token is no IRI, it is this fault.
pub(crate) fn class_or_thing(
    at: &mut Cursor,
    prefixes: &Prefixes,
    names: &mut NameSet,
    text: &mut String,
    other: OwlFault,
) -> Result<Option<u32>, OwlFault>
    ensures { (cause : Cause) → other ≡ fault_of cause at.old.token.start
        → Follows (λ k. class_or_thing prefixes.now (goes (k None)) (λ c. k (Some c)) (refuses cause)
        (symbol_at at.old))
        (here at.old prefixes.now names.old) (here at.new prefixes.now names.new) result }
{
    expect_iri(at, prefixes, text, other)?;
    let iri = text.as_str();
    if is_thing(iri) {
        at.advance()?;
        return Ok(None);
    }
    let class = take_class(at, names, iri)?;
    Ok(Some(class))
}
