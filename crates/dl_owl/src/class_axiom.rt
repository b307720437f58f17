// Axioms on classes, behind their keywords and annotations.
ghost use Rattle.std.specs.Prelude.{◌≡◌, []};
ghost use Rattle.dl_terms.specs.declared.axiom.Axiom.TheVariants as axioms;
ghost use Rattle.dl_owl.specs.declared.item.Item.TheVariants as item;
ghost use Rattle.dl_owl.specs.Expected.{close_then, role_then, sub_then, sup_then, subs_close};
ghost use Rattle.dl_owl.specs.Operands.{domain_or_range};
ghost use Rattle.dl_owl.specs.Walk.{here, Reads};

use crate::cursor::{Cursor, close};
use crate::fault::OwlFault;
use crate::item::Item;
use crate::left::sub;
use crate::list::subs;
use crate::prefixes::Prefixes;
use crate::right::sup;
use crate::role::role;
use dl_lex::Keyword;
use dl_names::NameSet;
use dl_terms::{Axiom, List, Part, Role};
use std::alloc::Global;

/// An inclusion of classes.
pub(crate) fn sub_class_of(
    alloc: Global,
    at: &mut Cursor,
    prefixes: &Prefixes,
    names: &mut NameSet,
    text: &mut String,
) -> Result<Item, OwlFault>
    ensures { Reads (λ k. sub_then (λ b. sup_then (λ ps. close_then (k (item.Axiom (axioms.SubClass b ps))))))
        (here at.old prefixes.now names.old) (here at.new prefixes.now names.new) result }
{
    let basic = sub(at, prefixes, names, text)?;
    let parts = sup(alloc, at, prefixes, names, text)?;
    close(at)?;
    Ok(Item::Axiom(Axiom::SubClass {
        sub: basic,
        sup: parts,
    }))
}

/// Classes that are equivalent.
pub(crate) fn equivalent_classes(
    alloc: Global,
    at: &mut Cursor,
    prefixes: &Prefixes,
    names: &mut NameSet,
    text: &mut String,
) -> Result<Item, OwlFault>
    ensures { Reads (λ k. subs_close 2 [] (λ bs. k (item.Axiom (axioms.EquivalentClasses bs))))
        (here at.old prefixes.now names.old) (here at.new prefixes.now names.new) result }
{
    let classes = subs(alloc, at, prefixes, names, text)?;
    Ok(Item::Axiom(Axiom::EquivalentClasses(classes)))
}

/// Classes that are disjoint.
pub(crate) fn disjoint_classes(
    alloc: Global,
    at: &mut Cursor,
    prefixes: &Prefixes,
    names: &mut NameSet,
    text: &mut String,
) -> Result<Item, OwlFault>
    ensures { Reads (λ k. subs_close 2 [] (λ bs. k (item.Axiom (axioms.DisjointClasses bs))))
        (here at.old prefixes.now names.old) (here at.new prefixes.now names.new) result }
{
    let classes = subs(alloc, at, prefixes, names, text)?;
    Ok(Item::Axiom(Axiom::DisjointClasses(classes)))
}

/// The domain of a role, or its range, as the keyword says.
fn restriction(word: Keyword, role: Role, sup: List<Part>) -> Axiom
    ensures { result ≡ domain_or_range word role sup }
{
    match word {
        Keyword::ObjectPropertyDomain => Axiom::Domain { role, sup },
        _ => Axiom::Range { role, sup },
    }
}

/// The domain or the range of a role.
pub(crate) fn domain_or_range(
    alloc: Global,
    at: &mut Cursor,
    prefixes: &Prefixes,
    names: &mut NameSet,
    text: &mut String,
    word: Keyword,
) -> Result<Item, OwlFault>
    ensures { Reads (λ k. role_then (λ r. sup_then (λ ps. close_then (k (item.Axiom (domain_or_range word r ps))))))
        (here at.old prefixes.now names.old) (here at.new prefixes.now names.new) result }
{
    let over = role(at, prefixes, names, text)?;
    let parts = sup(alloc, at, prefixes, names, text)?;
    close(at)?;
    Ok(Item::Axiom(restriction(word, over, parts)))
}
