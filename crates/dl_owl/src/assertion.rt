// Assertions, declarations and axioms on annotations, behind their keywords and annotations.
ghost use Rattle.std.specs.Prelude.{◌≡◌, List, []};
ghost use Rattle.dl_names.specs.NameList.{Text};
ghost use Rattle.dl_terms.specs.declared.axiom.Fact.TheVariants as facts;
ghost use Rattle.dl_owl.specs.declared.item.Item.TheVariants as item;
ghost use Rattle.dl_owl.specs.Expected.{close_then, iri_then, subject_then, value_then, role_then, individual_then, unnamed_then, different_close, class_then, entity_then};
ghost use Rattle.dl_owl.specs.Items.{link};
ghost use Rattle.dl_owl.specs.Steps.{member_then};
ghost use Rattle.dl_owl.specs.Walk.{here, Reads};

use crate::annotation::{subject, value};
use crate::class::asserted_class;
use crate::cursor::{Cursor, close};
use crate::different::different;
use crate::entity::entity;
use crate::fault::OwlFault;
use crate::item::Item;
use crate::name::{individual, iri, unnamed};
use crate::prefixes::Prefixes;
use crate::role::{property_of, role};
use dl_names::NameSet;
use dl_terms::{Fact, Role};
use std::alloc::Global;

/// The fact that a role joins two individuals: by its object property, and turned where it is an inverse.
fn link(role: Role, from: u32, to: u32) -> Fact
    ensures { result ≡ link role from to }
{
    let property = property_of(role);
    if role.inverse {
        return Fact::Link {
            role: property,
            from: to,
            to: from,
        };
    }
    Fact::Link {
        role: property,
        from,
        to,
    }
}

/// The individual of a class assertion.
fn named_member(
    at: &mut Cursor,
    prefixes: &Prefixes,
    names: &mut NameSet,
    text: &mut String,
    class: u32,
) -> Result<Item, OwlFault>
    ensures { Reads (λ k. individual_then (λ a. close_then (k (item.Fact (facts.Is class a)))))
        (here at.old prefixes.now names.old) (here at.new prefixes.now names.new) result }
{
    let who = individual(at, prefixes, names, text)?;
    close(at)?;
    Ok(Item::Fact(Fact::Is { class, who }))
}

/// An individual that is in `owl:Thing`, which has no effect.
fn unnamed_member(at: &mut Cursor, prefixes: &Prefixes, text: &mut String) -> Result<Item, OwlFault>
    ensures { (names : List Text) → Reads (λ k. unnamed_then (close_then (k item.NoEffect)))
        (here at.old prefixes.now names) (here at.new prefixes.now names) result }
{
    unnamed(at, prefixes, text)?;
    close(at)?;
    Ok(Item::NoEffect)
}

/// The individual of an assertion of this class, which is none where it is `owl:Thing`.
fn member(
    at: &mut Cursor,
    prefixes: &Prefixes,
    names: &mut NameSet,
    text: &mut String,
    class: Option<u32>,
) -> Result<Item, OwlFault>
    ensures { Reads (λ k. member_then k class)
        (here at.old prefixes.now names.old) (here at.new prefixes.now names.new) result }
{
    match class {
        Some(named) => named_member(at, prefixes, names, text, named),
        None => unnamed_member(at, prefixes, text),
    }
}

/// An individual that is in a class.
pub(crate) fn class_assertion(
    at: &mut Cursor,
    prefixes: &Prefixes,
    names: &mut NameSet,
    text: &mut String,
) -> Result<Item, OwlFault>
    ensures { Reads (λ k. class_then (λ o. member_then k o))
        (here at.old prefixes.now names.old) (here at.new prefixes.now names.new) result }
{
    let class = asserted_class(at, prefixes, names, text)?;
    member(at, prefixes, names, text, class)
}

/// Two individuals that a role joins.
pub(crate) fn property_assertion(
    at: &mut Cursor,
    prefixes: &Prefixes,
    names: &mut NameSet,
    text: &mut String,
) -> Result<Item, OwlFault>
    ensures { Reads (λ k. role_then (λ r. individual_then (λ a. individual_then (λ b. close_then (k (item.Fact
        (link r a b)))))))
        (here at.old prefixes.now names.old) (here at.new prefixes.now names.new) result }
{
    let over = role(at, prefixes, names, text)?;
    let from = individual(at, prefixes, names, text)?;
    let to = individual(at, prefixes, names, text)?;
    close(at)?;
    Ok(Item::Fact(link(over, from, to)))
}

/// Individuals that are different, which has no effect.
pub(crate) fn different_individuals(
    alloc: Global,
    at: &mut Cursor,
    prefixes: &Prefixes,
    text: &mut String,
) -> Result<Item, OwlFault>
    ensures { (names : List Text) → Reads (λ k. different_close 2 [] (k item.NoEffect))
        (here at.old prefixes.now names) (here at.new prefixes.now names) result }
{
    different(alloc, at, prefixes, text)?;
    Ok(Item::NoEffect)
}

/// The declaration of an entity.
pub(crate) fn declaration(
    at: &mut Cursor,
    prefixes: &Prefixes,
    names: &mut NameSet,
    text: &mut String,
) -> Result<Item, OwlFault>
    ensures { Reads (λ k. entity_then (λ i. close_then (k i)))
        (here at.old prefixes.now names.old) (here at.new prefixes.now names.new) result }
{
    let declared = entity(at, prefixes, names, text)?;
    close(at)?;
    Ok(declared)
}

/// The annotation of an IRI or a blank node, which has no effect.
pub(crate) fn annotation_assertion(
    at: &mut Cursor,
    prefixes: &Prefixes,
    text: &mut String,
) -> Result<Item, OwlFault>
    ensures { (names : List Text) → Reads (λ k. iri_then (subject_then (value_then (k item.NoEffect))))
        (here at.old prefixes.now names) (here at.new prefixes.now names) result }
{
    iri(at, prefixes, text)?;
    subject(at, prefixes, text)?;
    value(at, prefixes, text)?;
    Ok(Item::NoEffect)
}

/// An axiom on annotation properties, which has no effect.
pub(crate) fn annotation_axiom(
    at: &mut Cursor,
    prefixes: &Prefixes,
    text: &mut String,
) -> Result<Item, OwlFault>
    ensures { (names : List Text) → Reads (λ k. iri_then (iri_then (close_then (k item.NoEffect))))
        (here at.old prefixes.now names) (here at.new prefixes.now names) result }
{
    iri(at, prefixes, text)?;
    iri(at, prefixes, text)?;
    close(at)?;
    Ok(Item::NoEffect)
}
