// Roles and class expressions of left sides that stand next, as many as there are.
ghost use Rattle.std.specs.Prelude.{[], ◌∷◌};
ghost use Rattle.dl_owl.specs.Expected.{role_then, sub_then, roles_close, subs_close};
ghost use Rattle.dl_owl.specs.Series.{Appends};
ghost use Rattle.dl_owl.specs.Walk.{here, Reads};

use crate::cursor::{Cursor, close};
use crate::fault::OwlFault;
use crate::left::sub;
use crate::prefixes::Prefixes;
use crate::role::role;
use dl_names::NameSet;
use dl_terms::{Basic, List, Role};
use std::alloc::Global;

/// Puts the role that stands next behind those before.
fn add_role(
    at: &mut Cursor,
    prefixes: &Prefixes,
    names: &mut NameSet,
    text: &mut String,
    roles: &mut List<Role>,
) -> Result<(), OwlFault>
    ensures { Appends (λ k. role_then (λ r. k (r ∷ []))) (here at.old prefixes.now names.old)
        (here at.new prefixes.now names.new) roles.old roles.new result }
{
    let next = role(at, prefixes, names, text)?;
    roles.push(next)?;
    Ok(())
}

/// Puts the roles that stand next, two at least, behind those before, and passes over the `)` behind them.
fn add_roles(
    at: &mut Cursor,
    prefixes: &Prefixes,
    names: &mut NameSet,
    text: &mut String,
    roles: &mut List<Role>,
) -> Result<(), OwlFault>
    ensures { Appends (roles_close 2 []) (here at.old prefixes.now names.old)
        (here at.new prefixes.now names.new) roles.old roles.new result }
{
    add_role(at, prefixes, names, text, roles)?;
    add_role(at, prefixes, names, text, roles)?;
    while !at.is_close() {
        add_role(at, prefixes, names, text, roles)?;
    }
    close(at)
}

/// The roles that stand next, two at least, and the `)` behind them.
pub(crate) fn roles(
    alloc: Global,
    at: &mut Cursor,
    prefixes: &Prefixes,
    names: &mut NameSet,
    text: &mut String,
) -> Result<List<Role>, OwlFault>
    ensures { Reads (roles_close 2 []) (here at.old prefixes.now names.old)
        (here at.new prefixes.now names.new) result }
{
    let mut roles = List::new(alloc);
    add_roles(at, prefixes, names, text, &mut roles)?;
    Ok(roles)
}

/// Puts the class expression of a left side that stands next behind those before.
fn add_sub(
    at: &mut Cursor,
    prefixes: &Prefixes,
    names: &mut NameSet,
    text: &mut String,
    subs: &mut List<Basic>,
) -> Result<(), OwlFault>
    ensures { Appends (λ k. sub_then (λ b. k (b ∷ []))) (here at.old prefixes.now names.old)
        (here at.new prefixes.now names.new) subs.old subs.new result }
{
    let next = sub(at, prefixes, names, text)?;
    subs.push(next)?;
    Ok(())
}

/// Puts the class expressions of a left side that stand next, two at least, behind those before, and passes over the
/// `)` behind them.
fn add_subs(
    at: &mut Cursor,
    prefixes: &Prefixes,
    names: &mut NameSet,
    text: &mut String,
    subs: &mut List<Basic>,
) -> Result<(), OwlFault>
    ensures { Appends (subs_close 2 []) (here at.old prefixes.now names.old)
        (here at.new prefixes.now names.new) subs.old subs.new result }
{
    add_sub(at, prefixes, names, text, subs)?;
    add_sub(at, prefixes, names, text, subs)?;
    while !at.is_close() {
        add_sub(at, prefixes, names, text, subs)?;
    }
    close(at)
}

/// The class expressions of a left side that stand next, two at least, and the `)` behind them.
pub(crate) fn subs(
    alloc: Global,
    at: &mut Cursor,
    prefixes: &Prefixes,
    names: &mut NameSet,
    text: &mut String,
) -> Result<List<Basic>, OwlFault>
    ensures { Reads (subs_close 2 []) (here at.old prefixes.now names.old)
        (here at.new prefixes.now names.new) result }
{
    let mut subs = List::new(alloc);
    add_subs(at, prefixes, names, text, &mut subs)?;
    Ok(subs)
}
