// The existential variables of a query, and the bits that stand for them in the number of a set.
ghost use Rattle.std.specs.Prelude.{◌≡◌, ℕ, ◌≤◌, length, nat_eq, IfOk};
ghost use Rattle.std.specs.List.{list_any, flat_map};
ghost use Rattle.dl_terms.specs.Queries.{term_variables, atom_variables, is_existential, existential_variables};
ghost use Rattle.dl_terms.specs.declared.query.Term.TheVariants.{Var};
ghost use Rattle.dl_tree.specs.Masks.{bit_of, atom_links};

use dl_terms::{Atom, Query, Term};
use std::alloc::{AllocError, Global};

/// The existential variables of a query, ascending. The i-th is bit i in the number of a set.
pub fn existential_variables(alloc: Global, query: &Query) -> Result<Vec<u8>, AllocError>
    ensures { IfOk result (λ found. found.items ≡ existential_variables query.now) }
{
    let mut found = Vec::new(alloc);
    for v in 0..query.vars {
        if is_existential(query, v) {
            found.push(v)?;
        }
    }
    Ok(found)
}

fn is_existential(query: &Query, v: u8) -> bool
    ensures { result ≡ is_existential query.now v }
{
    occurs(query.atoms.as_slice(), v) && !is_among(query.head.as_slice(), v)
}

/// Whether a variable stands in one of the atoms.
fn occurs(atoms: &[Atom], v: u8) -> bool
    ensures { result ≡ list_any (nat_eq v) (flat_map atom_variables atoms.now) }
{
    some_has_variable(atoms, v)
}

fn some_has_variable(atoms: &[Atom], v: u8) -> bool
    ensures { result ≡ list_any (λ a. list_any (nat_eq v) (atom_variables a)) atoms.now }
{
    atoms.iter().any(|atom| has_variable(atom, v))
}

fn is_among(head: &[u8], v: u8) -> bool
    ensures { result ≡ list_any (nat_eq v) head.now }
{
    head.iter().any(|w| v == *w)
}

fn has_variable(atom: &Atom, v: u8) -> bool
    ensures { result ≡ list_any (nat_eq v) (atom_variables atom.now) }
{
    match atom {
        Atom::Is { class: _, at } => is_variable(*at, v),
        Atom::Link { role: _, from, to } => is_variable(*from, v) || is_variable(*to, v),
    }
}

fn is_variable(term: Term, v: u8) -> bool
    ensures { result ≡ list_any (nat_eq v) (term_variables term) }
{
    match term {
        Term::Var(w) => v == w,
        Term::Name(_) => false,
    }
}

/// The bits of the two terms of each role atom, in order.
pub fn link_bits(
    alloc: Global,
    variables: &[u8],
    atoms: &[Atom],
) -> Result<Vec<(u8, u8)>, AllocError>
    requires { length variables.now ≤ 8 }
    ensures { IfOk result (λ links. links.items ≡ flat_map (atom_links variables.now) atoms.now) }
{
    let mut links = Vec::new(alloc);
    for atom in atoms {
        if let Atom::Link { role: _, from, to } = atom {
            links.push((bit_of(variables, *from), bit_of(variables, *to)))?;
        }
    }
    Ok(links)
}

/// The bit of a term among the existential variables, or 0 where it is none of them.
pub fn bit_of(variables: &[u8], term: Term) -> u8
    requires { length variables.now ≤ 8 }
    ensures { result ≡ bit_of variables.now term }
{
    match term {
        Term::Var(v) => bit_of_variable(variables, v),
        Term::Name(_) => 0,
    }
}

fn bit_of_variable(variables: &[u8], v: u8) -> u8
    requires { length variables.now ≤ 8 }
    ensures { result ≡ bit_of variables.now (Var v) }
{
    let mut bit = 1u32;
    for w in variables {
        if *w == v {
            return bit as u8;
        }
        bit *= 2;
    }
    0
}
