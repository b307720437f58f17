// Axioms on object properties, behind their keywords and annotations.
ghost use Rattle.std.specs.Prelude.{◌≡◌, Some, None, []};
ghost use Rattle.dl_terms.specs.declared.axiom.Axiom.TheVariants as axioms;
ghost use Rattle.dl_owl.specs.declared.item.Item.TheVariants as item;
ghost use Rattle.dl_owl.specs.Expected.{close_then, role_then, first_role, second_role, roles_close};
ghost use Rattle.dl_owl.specs.Operands.{sub_role_item, one_role};
ghost use Rattle.dl_owl.specs.Walk.{here, Reads};

use crate::cursor::{Cursor, close};
use crate::fault::OwlFault;
use crate::item::Item;
use crate::list::roles;
use crate::pair::{first_role, second_role};
use crate::prefixes::Prefixes;
use crate::role::{property_of, role};
use dl_lex::Keyword;
use dl_names::NameSet;
use dl_terms::{Axiom, Role};
use std::alloc::Global;

/// What an inclusion of roles adds; one in `owl:topObjectProperty` holds always, and adds its role.
fn sub_role_item(sub: Role, sup: Option<Role>) -> Item
    ensures { result ≡ sub_role_item sub sup }
{
    match sup {
        Some(sup) => Item::Axiom(Axiom::SubRole { sub, sup }),
        None => Item::Role(property_of(sub)),
    }
}

/// An inclusion of roles.
pub(crate) fn sub_role_of(
    at: &mut Cursor,
    prefixes: &Prefixes,
    names: &mut NameSet,
    text: &mut String,
) -> Result<Item, OwlFault>
    ensures { Reads (λ k. first_role (λ r. second_role (λ s. close_then (k (sub_role_item r (Some s))))
        (close_then (k (sub_role_item r None)))))
        (here at.old prefixes.now names.old) (here at.new prefixes.now names.new) result }
{
    let sub = first_role(at, prefixes, names, text)?;
    let sup = second_role(at, prefixes, names, text)?;
    close(at)?;
    Ok(sub_role_item(sub, sup))
}

/// Roles that are equivalent.
pub(crate) fn equivalent_roles(
    alloc: Global,
    at: &mut Cursor,
    prefixes: &Prefixes,
    names: &mut NameSet,
    text: &mut String,
) -> Result<Item, OwlFault>
    ensures { Reads (λ k. roles_close 2 [] (λ rs. k (item.Axiom (axioms.EquivalentRoles rs))))
        (here at.old prefixes.now names.old) (here at.new prefixes.now names.new) result }
{
    let several = roles(alloc, at, prefixes, names, text)?;
    Ok(Item::Axiom(Axiom::EquivalentRoles(several)))
}

/// Roles that are disjoint.
pub(crate) fn disjoint_roles(
    alloc: Global,
    at: &mut Cursor,
    prefixes: &Prefixes,
    names: &mut NameSet,
    text: &mut String,
) -> Result<Item, OwlFault>
    ensures { Reads (λ k. roles_close 2 [] (λ rs. k (item.Axiom (axioms.DisjointRoles rs))))
        (here at.old prefixes.now names.old) (here at.new prefixes.now names.new) result }
{
    let several = roles(alloc, at, prefixes, names, text)?;
    Ok(Item::Axiom(Axiom::DisjointRoles(several)))
}

/// Two roles that are inverse to each other.
pub(crate) fn inverse_roles(
    at: &mut Cursor,
    prefixes: &Prefixes,
    names: &mut NameSet,
    text: &mut String,
) -> Result<Item, OwlFault>
    ensures { Reads (λ k. role_then (λ r. role_then (λ s. close_then (k (item.Axiom (axioms.InverseRoles r s))))))
        (here at.old prefixes.now names.old) (here at.new prefixes.now names.new) result }
{
    let one = role(at, prefixes, names, text)?;
    let two = role(at, prefixes, names, text)?;
    close(at)?;
    Ok(Item::Axiom(Axiom::InverseRoles { one, two }))
}

/// The axiom on one role that a keyword begins.
fn characteristic(word: Keyword, role: Role) -> Axiom
    ensures { result ≡ one_role word role }
{
    match word {
        Keyword::SymmetricObjectProperty => Axiom::Symmetric(role),
        Keyword::AsymmetricObjectProperty => Axiom::Asymmetric(role),
        _ => Axiom::Irreflexive(role),
    }
}

/// A role that is symmetric, asymmetric or irreflexive, as the keyword says.
pub(crate) fn one_role(
    at: &mut Cursor,
    prefixes: &Prefixes,
    names: &mut NameSet,
    text: &mut String,
    word: Keyword,
) -> Result<Item, OwlFault>
    ensures { Reads (λ k. role_then (λ r. close_then (k (item.Axiom (one_role word r)))))
        (here at.old prefixes.now names.old) (here at.new prefixes.now names.new) result }
{
    let over = role(at, prefixes, names, text)?;
    close(at)?;
    Ok(Item::Axiom(characteristic(word, over)))
}
