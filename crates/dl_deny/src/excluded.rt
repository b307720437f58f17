// The query of a negative, as the definitions have it.
ghost use Rattle.std.specs.Prelude.{◌≡◌, ◌+◌, ◌<◌, IfOk, [], ◌∷◌};
ghost use Rattle.dl_terms.specs.Broken.{query_of, basic_atom, neighbours, role_atom, role_name};
ghost use Rattle.dl_terms.specs.Queries.{IsWellFormed};

use crate::copied::list_of;
use dl_terms::{Atom, Base, Basic, List, Negative, NoMemory, Query, Role, Term};
use std::alloc::Global;

/// The query of a negative, without head, which is well formed. "Some r" has r(x, y), with a neighbour y of its own,
/// and the inverse of a role its terms turned (Calvanese et al. 2007). Fails only for want of memory.
pub fn query_of(alloc: Global, negative: Negative) -> Result<Query, NoMemory>
    ensures value { IfOk result (λ query. query ≡ query_of negative) }
    ensures formed { IfOk result IsWellFormed }
{
    match negative {
        Negative::Basics(one, two) => {
            let first = basic_atom(one, 1);
            let next = 1 + neighbours(one);
            let second = basic_atom(two, next);
            query_on(alloc, &[first, second], next + neighbours(two))
        }
        Negative::Roles(one, two) => {
            let first = role_atom(one, Term::Var(0), Term::Var(1));
            let second = role_atom(two, Term::Var(0), Term::Var(1));
            query_on(alloc, &[first, second], 2)
        }
        Negative::NoLoop(role) => {
            let loop_atom = role_atom(role, Term::Var(0), Term::Var(0));
            query_on(alloc, &[loop_atom], 1)
        }
    }
}

/// A query without head over so many variables.
fn query_on(alloc: Global, atoms: &[Atom], vars: u8) -> Result<Query, NoMemory>
    ensures { IfOk result (λ query. query ≡ record { head = []; atoms = atoms.now; vars = vars }) }
{
    Ok(Query {
        head: List::new(alloc),
        atoms: list_of(alloc, atoms)?,
        vars,
    })
}

/// That a basic concept holds of variable 0, with a variable for its neighbour.
fn basic_atom(basic: Basic, neighbour: u8) -> Atom
    ensures { result ≡ basic_atom basic neighbour }
{
    match basic {
        Basic::Class(class) => Atom::Is {
            class,
            at: Term::Var(0),
        },
        Basic::SomeOf(role) => role_atom(role, Term::Var(0), Term::Var(neighbour)),
    }
}

/// How many neighbours that asks for.
fn neighbours(basic: Basic) -> u8
    ensures value { result ≡ neighbours basic }
    ensures few { result < 2 }
{
    match basic {
        Basic::Class(_) => 0,
        Basic::SomeOf(_) => 1,
    }
}

/// A role between two terms, which stand turned where it is an inverse.
fn role_atom(role: Role, from: Term, to: Term) -> Atom
    ensures { result ≡ role_atom role from to }
{
    let name = role_name(role.base);
    if role.inverse {
        Atom::Link {
            role: name,
            from: to,
            to: from,
        }
    } else {
        Atom::Link {
            role: name,
            from,
            to,
        }
    }
}

/// The name of a role; of an auxiliary role, which no negative has, that of its role.
fn role_name(base: Base) -> u32
    ensures { result ≡ role_name base }
{
    match base {
        Base::Named(name) => name,
        Base::Auxiliary { role, .. } => role,
    }
}
