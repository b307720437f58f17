// Axioms as rows of constants.
ghost use Rattle.std.specs.Prelude.{◌≡◌, IfOk};

use dl_terms::{Axiom, Basic, List, NoMemory, Part, Role};
use std::alloc::{AllocError, Global};

/// An axiom whose operands are constants.
pub enum Row {
    SubClass(Basic, &'static [Part]),
    EquivalentClasses(&'static [Basic]),
    DisjointClasses(&'static [Basic]),
    SubRole(Role, Role),
    EquivalentRoles(&'static [Role]),
    DisjointRoles(&'static [Role]),
    InverseRoles(Role, Role),
    Domain(Role, &'static [Part]),
    Range(Role, &'static [Part]),
    Symmetric(Role),
    Asymmetric(Role),
    Irreflexive(Role),
}

/// The list of some items.
pub fn list_of<T: Copy + Drop>(alloc: Global, items: &[T]) -> Result<List<T>, AllocError>
    ensures { IfOk result (λ list. list ≡ items.now) }
{
    Ok(List::of(Vec::from_slice(alloc, items)?))
}

/// The axiom of a row.
pub fn axiom_of(alloc: Global, row: &Row) -> Result<Axiom, AllocError> {
    Ok(match *row {
        Row::SubClass(sub, parts) => Axiom::SubClass {
            sub,
            sup: list_of(alloc, parts)?,
        },
        Row::EquivalentClasses(basics) => Axiom::EquivalentClasses(list_of(alloc, basics)?),
        Row::DisjointClasses(basics) => Axiom::DisjointClasses(list_of(alloc, basics)?),
        Row::SubRole(sub, sup) => Axiom::SubRole { sub, sup },
        Row::EquivalentRoles(roles) => Axiom::EquivalentRoles(list_of(alloc, roles)?),
        Row::DisjointRoles(roles) => Axiom::DisjointRoles(list_of(alloc, roles)?),
        Row::InverseRoles(one, two) => Axiom::InverseRoles { one, two },
        Row::Domain(role, parts) => Axiom::Domain {
            role,
            sup: list_of(alloc, parts)?,
        },
        Row::Range(role, parts) => Axiom::Range {
            role,
            sup: list_of(alloc, parts)?,
        },
        Row::Symmetric(role) => Axiom::Symmetric(role),
        Row::Asymmetric(role) => Axiom::Asymmetric(role),
        Row::Irreflexive(role) => Axiom::Irreflexive(role),
    })
}

/// The axioms of some rows.
pub fn axioms_of(alloc: Global, rows: &[Row]) -> Result<List<Axiom>, NoMemory> {
    let mut axioms = List::new(alloc);
    for row in rows {
        axioms.push(axiom_of(alloc, row)?)?;
    }
    Ok(axioms)
}
