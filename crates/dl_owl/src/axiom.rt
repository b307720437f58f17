// Axioms that stand next, each with its annotations.
ghost use Rattle.std.specs.Prelude.{◌≡◌};
ghost use Rattle.dl_owl.specs.Operands.{is_axiom, operands_then};
ghost use Rattle.dl_owl.specs.Steps.{axiom_next};
ghost use Rattle.dl_owl.specs.Walk.{here, symbol_at, Follows, Reads};

use crate::annotation::begin;
use crate::assertion::{
    annotation_assertion, annotation_axiom, class_assertion, declaration, different_individuals,
    property_assertion,
};
use crate::class_axiom::{disjoint_classes, domain_or_range, equivalent_classes, sub_class_of};
use crate::cursor::Cursor;
use crate::fault::OwlFault;
use crate::item::Item;
use crate::prefixes::Prefixes;
use crate::refused::refused_axiom;
use crate::role_axiom::{disjoint_roles, equivalent_roles, inverse_roles, one_role, sub_role_of};
use dl_lex::Keyword;
use dl_names::NameSet;
use std::alloc::Global;

/// Whether a keyword begins an axiom or a declaration.
fn is_axiom(word: Keyword) -> bool
    ensures { result ≡ is_axiom word }
{
    match word {
        Keyword::SubClassOf
        | Keyword::EquivalentClasses
        | Keyword::DisjointClasses
        | Keyword::SubObjectPropertyOf
        | Keyword::EquivalentObjectProperties
        | Keyword::DisjointObjectProperties
        | Keyword::InverseObjectProperties
        | Keyword::ObjectPropertyDomain
        | Keyword::ObjectPropertyRange
        | Keyword::SymmetricObjectProperty
        | Keyword::AsymmetricObjectProperty
        | Keyword::IrreflexiveObjectProperty
        | Keyword::ClassAssertion
        | Keyword::ObjectPropertyAssertion
        | Keyword::DifferentIndividuals
        | Keyword::Declaration
        | Keyword::AnnotationAssertion
        | Keyword::SubAnnotationPropertyOf
        | Keyword::AnnotationPropertyDomain
        | Keyword::AnnotationPropertyRange => true,
        _ => false,
    }
}

/// The operands of an axiom, and the `)` behind them.
fn operands(
    alloc: Global,
    at: &mut Cursor,
    prefixes: &Prefixes,
    names: &mut NameSet,
    text: &mut String,
    word: Keyword,
) -> Result<Item, OwlFault>
    ensures { Reads (operands_then word) (here at.old prefixes.now names.old)
        (here at.new prefixes.now names.new) result }
{
    match word {
        Keyword::SubClassOf => sub_class_of(alloc, at, prefixes, names, text),
        Keyword::EquivalentClasses => equivalent_classes(alloc, at, prefixes, names, text),
        Keyword::DisjointClasses => disjoint_classes(alloc, at, prefixes, names, text),
        Keyword::SubObjectPropertyOf => sub_role_of(at, prefixes, names, text),
        Keyword::EquivalentObjectProperties => equivalent_roles(alloc, at, prefixes, names, text),
        Keyword::DisjointObjectProperties => disjoint_roles(alloc, at, prefixes, names, text),
        Keyword::InverseObjectProperties => inverse_roles(at, prefixes, names, text),
        Keyword::ObjectPropertyDomain => domain_or_range(alloc, at, prefixes, names, text, word),
        Keyword::ObjectPropertyRange => domain_or_range(alloc, at, prefixes, names, text, word),
        Keyword::SymmetricObjectProperty => one_role(at, prefixes, names, text, word),
        Keyword::AsymmetricObjectProperty => one_role(at, prefixes, names, text, word),
        Keyword::IrreflexiveObjectProperty => one_role(at, prefixes, names, text, word),
        Keyword::ClassAssertion => class_assertion(at, prefixes, names, text),
        Keyword::ObjectPropertyAssertion => property_assertion(at, prefixes, names, text),
        Keyword::DifferentIndividuals => different_individuals(alloc, at, prefixes, text),
        Keyword::Declaration => declaration(at, prefixes, names, text),
        Keyword::AnnotationAssertion => annotation_assertion(at, prefixes, text),
        _ => annotation_axiom(at, prefixes, text),
    }
}

/// The axiom or declaration that stands next, as what it adds to a document.
pub(crate) fn axiom(
    alloc: Global,
    at: &mut Cursor,
    prefixes: &Prefixes,
    names: &mut NameSet,
    text: &mut String,
) -> Result<Item, OwlFault>
    ensures { Follows (λ k. axiom_next k (symbol_at at.old)) (here at.old prefixes.now names.old)
        (here at.new prefixes.now names.new) result }
{
    let start = at.start();
    let Some(word) = at.keyword() else {
        return Err(OwlFault::Syntax { at: start });
    };
    if !is_axiom(word) {
        return Err(refused_axiom(word, start));
    }
    at.advance()?;
    begin(at, prefixes, text)?;
    operands(alloc, at, prefixes, names, text, word)
}
