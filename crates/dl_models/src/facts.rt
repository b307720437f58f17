// The facts that a finite interpretation accepts.
ghost use Rattle.std.specs.Prelude.{ℕ, ◌↔◌, IsTrue, MatchOption};
ghost use Rattle.std.specs.List.{Contains};
ghost use Rattle.dl_terms.specs.declared.axiom.Fact.TheVariants.{Is, Link};
ghost use Rattle.dl_models.specs.Meaning.{FactHolds};
ghost use Rattle.dl_models.specs.Structures.{finite};

use crate::Interp;
use crate::elements::{is_in, is_link};
use dl_terms::Fact;

impl Interp {
    /// Whether the interpretation satisfies a fact: its names have elements there, and these are in its predicate. It
    /// takes no memory.
    pub fn accepts_fact(&self, fact: &Fact) -> bool
        ensures { IsTrue result ↔ FactHolds (finite self.now) fact.now }
    {
        match *fact {
            Fact::Is { class, who } => is_member(self, class, who),
            Fact::Link { role, from, to } => are_joined(self, role, from, to),
        }
    }
}

/// Whether a name has an element.
pub(crate) fn is_named(model: &Interp, name: u32, x: u32) -> bool
    ensures { IsTrue result ↔ Contains model.now.names (name, x) }
{
    model.names.as_slice().contains(&(name, x))
}

/// What a key first stands beside in a list of pairs.
pub(crate) fn look_up(pairs: &[(u32, u32)], key: u32) -> Option<u32>
    ensures { MatchOption result ((x : ℕ) → ¬ Contains pairs.now (key, x)) (λ x. Contains pairs.now (key, x)) }
{
    for (known, x) in pairs {
        if *known == key {
            return Some(*x);
        }
    }
    None
}

/// Whether the element of a name is in a class.
fn is_member(model: &Interp, class: u32, who: u32) -> bool
    ensures { IsTrue result ↔ FactHolds (finite model.now) (Is class who) }
{
    let Some(x) = look_up(model.names.as_slice(), who) else {
        return false;
    };
    is_in(model, class, x)
}

/// Whether a role links the elements of two names.
fn are_joined(model: &Interp, role: u32, from: u32, to: u32) -> bool
    ensures { IsTrue result ↔ FactHolds (finite model.now) (Link role from to) }
{
    let Some(x) = look_up(model.names.as_slice(), from) else {
        return false;
    };
    let Some(y) = look_up(model.names.as_slice(), to) else {
        return false;
    };
    is_link(model, role, x, y)
}
