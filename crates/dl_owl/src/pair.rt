// The two roles of an inclusion of object properties.
ghost use Rattle.std.specs.Prelude.{◌≡◌, Some, None};
ghost use Rattle.std.specs.Str.{bytes_eq};
ghost use Rattle.dl_owl.specs.Expected.{first_role, second_role};
ghost use Rattle.dl_owl.specs.NamesNext.{owl_top_object_property};
ghost use Rattle.dl_owl.specs.Walk.{here, Reads};

use crate::cursor::{Cursor, is_word};
use crate::fault::{Construct, OwlFault};
use crate::name::{expect_iri, take_free};
use crate::prefixes::Prefixes;
use crate::role::role;
use dl_lex::Keyword;
use dl_names::NameSet;
use dl_terms::{Base, Role};

const OWL_TOP_OBJECT_PROPERTY: &str = "http://www.w3.org/2002/07/owl#topObjectProperty";

/// The role of the left side that stands next.
pub(crate) fn first_role(
    at: &mut Cursor,
    prefixes: &Prefixes,
    names: &mut NameSet,
    text: &mut String,
) -> Result<Role, OwlFault>
    ensures { Reads first_role (here at.old prefixes.now names.old)
        (here at.new prefixes.now names.new) result }
{
    let start = at.start();
    if is_word(at, Keyword::ObjectPropertyChain) {
        return Err(OwlFault::NotQl {
            at: start,
            what: Construct::Keyword(Keyword::ObjectPropertyChain),
        });
    }
    role(at, prefixes, names, text)
}

/// Whether this is the IRI of `owl:topObjectProperty`.
fn is_top(text: &str) -> bool
    ensures { result ≡ bytes_eq owl_top_object_property text.now }
{
    OWL_TOP_OBJECT_PROPERTY == text
}

/// The role of the right side that stands next, none where it is `owl:topObjectProperty`.
pub(crate) fn second_role(
    at: &mut Cursor,
    prefixes: &Prefixes,
    names: &mut NameSet,
    text: &mut String,
) -> Result<Option<Role>, OwlFault>
    ensures { Reads (λ k. second_role (λ r. k (Some r)) (k None)) (here at.old prefixes.now names.old)
        (here at.new prefixes.now names.new) result }
{
    if is_word(at, Keyword::ObjectInverseOf) {
        let over = role(at, prefixes, names, text)?;
        return Ok(Some(over));
    }
    let start = at.start();
    expect_iri(at, prefixes, text, OwlFault::Syntax { at: start })?;
    let iri = text.as_str();
    if is_top(iri) {
        at.advance()?;
        return Ok(None);
    }
    let place = take_free(at, names, iri)?;
    Ok(Some(Role {
        base: Base::Named(place),
        inverse: false,
    }))
}
