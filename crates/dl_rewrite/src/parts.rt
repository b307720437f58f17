// The parts of a set of variables, and the pairs of terms that have to be one where they fold.
ghost use Rattle.std.specs.Prelude.{◌≡◌, ◌<◌, ◌≤◌, ◌^◌, ◌++◌, true, All, length, map, IfOk, OnOk};
ghost use Rattle.std.specs.List.{flat_map};
ghost use Rattle.dl_terms.specs.declared.query.Term.TheVariants.{Var};
ghost use Rattle.dl_tree.specs.Sets.{is_in, touches};
ghost use Rattle.dl_tree.specs.Masks.{set_of, AreLinkMasks};
ghost use Rattle.dl_tree.specs.TestsOf.{IsNumbering};
ghost use Rattle.dl_rewrite.specs.Steps.{member_of, ArePartsOf, atom_terms, atom_pairs, part_pairs, pairs_of};

use dl_terms::{Atom, Query, Term};
use dl_tree::{bit_of, part_of};
use std::alloc::{AllocError, Global};

/// The parts of a set: connected sets that no role atom links to one another.
pub(crate) fn parts_of(
    alloc: Global,
    query: &Query,
    variables: &[u8],
    links: &[(u8, u8)],
    set: u8,
) -> Result<Vec<u8>, AllocError>
    requires masks { AreLinkMasks query.now variables.now links.now }
    requires numbering { IsNumbering variables.now }
    requires few { length variables.now ≤ 8 }
    requires fits { set < 2 ^ length variables.now }
    ensures { IfOk result (λ parts. ArePartsOf query.now variables.now set parts.items) }
{
    let mut parts = Vec::new(alloc);
    let mut rest = set;
    while rest != 0 {
        let part = part_of(links, rest);
        parts.push(part)?;
        rest &= !part;
    }
    Ok(parts)
}

/// The variable of a part.
pub(crate) fn member_of(variables: &[u8], part: u8) -> u8
    requires few { length variables.now ≤ 8 }
    requires fits { part < 2 ^ length variables.now }
    ensures { result ≡ member_of variables.now part }
{
    for v in variables {
        if is_in(variables, Term::Var(*v), part) {
            return *v;
        }
    }
    0
}

fn is_in(variables: &[u8], term: Term, set: u8) -> bool
    requires few { length variables.now ≤ 8 }
    requires fits { set < 2 ^ length variables.now }
    ensures { result ≡ is_in (set_of variables.now set) term }
{
    bit_of(variables, term) & set != 0
}

/// Whether an atom has a member of a set.
pub(crate) fn touches(variables: &[u8], atom: Atom, set: u8) -> bool
    requires few { length variables.now ≤ 8 }
    requires fits { set < 2 ^ length variables.now }
    ensures { result ≡ touches (set_of variables.now set) «atom» }
{
    match atom {
        Atom::Is { class: _, at } => is_in(variables, at, set),
        Atom::Link { role: _, from, to } => {
            is_in(variables, from, set) || is_in(variables, to, set)
        }
    }
}

/// The variable of each part with each term that shares an atom with the part.
pub(crate) fn pairs_of(
    alloc: Global,
    variables: &[u8],
    atoms: &[Atom],
    parts: &[u8],
) -> Result<Vec<(Term, Term)>, AllocError>
    requires few { length variables.now ≤ 8 }
    requires fit { All (λ m. m < 2 ^ length variables.now) parts.now }
    ensures { IfOk result (λ pairs. pairs.items ≡ pairs_of variables.now atoms.now parts.now) }
{
    let mut pairs = Vec::new(alloc);
    for part in parts {
        push_part(&mut pairs, variables, atoms, *part)?;
    }
    Ok(pairs)
}

fn push_part(
    pairs: &mut Vec<(Term, Term)>,
    variables: &[u8],
    atoms: &[Atom],
    part: u8,
) -> Result<(), AllocError>
    requires few { length variables.now ≤ 8 }
    requires fits { part < 2 ^ length variables.now }
    ensures { OnOk result (pairs.new.items ≡ pairs.old.items ++ part_pairs variables.now atoms.now part) }
{
    let member = Term::Var(member_of(variables, part));
    for atom in atoms {
        if touches(variables, *atom, part) {
            push_terms(pairs, member, *atom)?;
        }
    }
    Ok(())
}

fn push_terms(pairs: &mut Vec<(Term, Term)>, member: Term, atom: Atom) -> Result<(), AllocError>
    ensures { OnOk result (pairs.new.items ≡ pairs.old.items ++ map (λ t. (member, t)) (atom_terms «atom»)) }
{
    match atom {
        Atom::Is { class: _, at } => pairs.push((member, at))?,
        Atom::Link { role: _, from, to } => {
            pairs.push((member, from))?;
            pairs.push((member, to))?;
        }
    }
    Ok(())
}
