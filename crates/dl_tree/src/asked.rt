// What the atoms of a query ask of the roles of a hierarchy.
ghost use Rattle.std.specs.Prelude.{◌≡◌, ℕ, ◌≤◌, length, List as Items, IfOk};
ghost use Rattle.dl_terms.specs.declared.axiom.Axiom.{Axiom};
ghost use Rattle.dl_hier.specs.Predicates.{roles};
ghost use Rattle.dl_hier.specs.Hierarchy.{IsHierarchyOf};
ghost use Rattle.dl_tree.specs.TestsOf.{IsRowsOf, AreRowsOf};

use crate::atoms::AtomRows;
use crate::bits::list_of;
use crate::variables::bit_of;
use dl_hier::Hier;
use dl_terms::{Atom, Basic, List, NoMemory, Role};
use std::alloc::Global;

/// What each atom asks of the roles.
pub(crate) fn rows_of_atoms(
    alloc: Global,
    hier: &Hier,
    places: usize,
    variables: &[u8],
    atoms: &[Atom],
) -> Result<List<AtomRows>, NoMemory>
    requires few { length variables.now ≤ 8 }
    requires places { places ≡ length (roles hier.now.predicates) }
    ensures { IfOk result (λ rows. (axioms : Items Axiom) → IsHierarchyOf hier.now axioms →
        AreRowsOf axioms atoms.now variables.now (roles hier.now.predicates) rows) }
{
    let mut rows = List::new(alloc);
    for i in 0..atoms.len() {
        rows.push(rows_of_atom(alloc, hier, places, variables, atoms[i])?)?;
    }
    Ok(rows)
}

/// What an atom asks of the roles.
fn rows_of_atom(
    alloc: Global,
    hier: &Hier,
    places: usize,
    variables: &[u8],
    atom: Atom,
) -> Result<AtomRows, NoMemory>
    requires few { length variables.now ≤ 8 }
    requires places { places ≡ length (roles hier.now.predicates) }
    ensures { IfOk result (λ rows. (axioms : Items Axiom) → IsHierarchyOf hier.now axioms →
        IsRowsOf axioms variables.now (roles hier.now.predicates) atom rows) }
{
    match atom {
        Atom::Is { class, at } => Ok(AtomRows::Is {
            bit: bit_of(variables, at),
            holds: list_of(alloc, hier.bits_leading(Basic::Class(class)), places)?,
        }),
        Atom::Link { role, from, to } => Ok(AtomRows::Link {
            from: bit_of(variables, from),
            to: bit_of(variables, to),
            out: list_of(alloc, hier.bits_below(Role::named(role).inverse()), places)?,
            into: list_of(alloc, hier.bits_below(Role::named(role)), places)?,
        }),
    }
}
