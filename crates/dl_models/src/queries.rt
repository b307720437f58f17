// The queries that hold in a finite interpretation: a search atom by atom, with the values that variables have so far.
ghost use Rattle.std.specs.Prelude.{ℕ, ◌↔◌, All, IsTrue, IfOk};
ghost use Rattle.dl_terms.specs.declared.query.Atom.TheVariants.{Is, Link};
ghost use Rattle.dl_models.specs.Meaning.{StandsFor, AtomHolds, QueryHolds};
ghost use Rattle.dl_models.specs.Structures.{finite};
ghost use Rattle.dl_models.specs.Values.{Agrees, CanAgree};

use crate::Interp;
use crate::values::{bind_all, bind_head};
use dl_terms::{Atom, NoMemory, Query, Term};
use std::alloc::Global;

impl Interp {
    /// Whether a query holds of a tuple of names: some elements for its variables make each atom true and give the
    /// tuple's elements to the head. It doesn't where a name has no element, or the tuple is not as long as the head.
    /// Fails only for want of memory.
    pub fn holds(&self, alloc: Global, query: &Query, tuple: &[u32]) -> Result<bool, NoMemory>
        ensures { IfOk result (λ b. IsTrue b ↔ QueryHolds (finite self.now) query.now tuple.now) }
    {
        let head = query.head.as_slice();
        if head.len() != tuple.len() {
            return Ok(false);
        }
        let mut values = Vec::new(alloc);
        if !bind_head(self, &mut values, head, tuple)? {
            return Ok(false);
        }
        holds_from(alloc, self, values.as_slice(), query.atoms.as_slice())
    }
}

/// Whether atoms hold for some values of variables, of which some are given.
#[cycle(search)]
fn holds_from(
    alloc: Global,
    model: &Interp,
    values: &[(u32, u32)],
    atoms: &[Atom],
) -> Result<bool, NoMemory>
    requires { CanAgree values.now }
    ensures { IfOk result (λ b. IsTrue b
        ↔ ((m : ℕ → ℕ) × Agrees m values.now × All (AtomHolds (finite model.now) m) atoms.now)) }
{
    let Some((atom, rest)) = atoms.split_first() else {
        return Ok(true);
    };
    match *atom {
        Atom::Is { class, at } => holds_in_class(alloc, model, values, class, at, rest),
        Atom::Link { role, from, to } => holds_in_role(
            alloc,
            model,
            values,
            role,
            (from, to),
            rest,
        ),
    }
}

/// Whether a term is in a class and atoms hold.
#[cycle(search)]
fn holds_in_class(
    alloc: Global,
    model: &Interp,
    values: &[(u32, u32)],
    class: u32,
    at: Term,
    atoms: &[Atom],
) -> Result<bool, NoMemory>
    requires { CanAgree values.now }
    ensures { IfOk result (λ b. IsTrue b
        ↔ ((m : ℕ → ℕ) × Agrees m values.now × AtomHolds (finite model.now) m (Is class at)
        × All (AtomHolds (finite model.now) m) atoms.now)) }
{
    for (known, x) in model.classes.as_slice() {
        if *known != class {
            continue;
        }
        if holds_with(alloc, model, values, &[(at, *x)], atoms)? {
            return Ok(true);
        }
    }
    Ok(false)
}

/// Whether a role links two terms and atoms hold.
#[cycle(search)]
fn holds_in_role(
    alloc: Global,
    model: &Interp,
    values: &[(u32, u32)],
    role: u32,
    ends: (Term, Term),
    atoms: &[Atom],
) -> Result<bool, NoMemory>
    requires { CanAgree values.now }
    ensures { IfOk result (λ b. IsTrue b
        ↔ ((m : ℕ → ℕ) × Agrees m values.now × AtomHolds (finite model.now) m (Link role ends.0 ends.1)
        × All (AtomHolds (finite model.now) m) atoms.now)) }
{
    for (known, x, y) in model.links.as_slice() {
        if *known != role {
            continue;
        }
        if holds_with(alloc, model, values, &[(ends.0, *x), (ends.1, *y)], atoms)? {
            return Ok(true);
        }
    }
    Ok(false)
}

/// Whether terms have some elements and atoms hold.
#[cycle(search)]
fn holds_with(
    alloc: Global,
    model: &Interp,
    values: &[(u32, u32)],
    terms: &[(Term, u32)],
    atoms: &[Atom],
) -> Result<bool, NoMemory>
    requires { CanAgree values.now }
    ensures { IfOk result (λ b. IsTrue b
        ↔ ((m : ℕ → ℕ) × Agrees m values.now
        × All (λ t. StandsFor (finite model.now) m t.0 t.1) terms.now
        × All (AtomHolds (finite model.now) m) atoms.now)) }
{
    let mut grown = Vec::from_slice(alloc, values)?;
    if !bind_all(model, &mut grown, terms)? {
        return Ok(false);
    }
    holds_from(alloc, model, grown.as_slice(), atoms)
}
