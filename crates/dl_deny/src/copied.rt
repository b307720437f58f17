// Axioms copied.
ghost use Rattle.std.specs.Prelude.{◌≡◌, IfOk};

use dl_terms::{Axiom, List, NoMemory};
use std::alloc::{AllocError, Global};

/// A copy of a list.
pub(crate) fn list_of<T: Copy + Drop>(alloc: Global, items: &[T]) -> Result<List<T>, AllocError>
    ensures { IfOk result (λ copy. copy ≡ items.now) }
{
    let copy = Vec::from_slice(alloc, items)?;
    Ok(List::of(copy))
}

/// A copy of an axiom. Fails only for want of memory.
pub fn copy_of(alloc: Global, axiom: &Axiom) -> Result<Axiom, NoMemory>
    ensures { IfOk result (λ copy. copy ≡ «axiom».now) }
{
    Ok(match axiom {
        Axiom::SubClass { sub, sup } => Axiom::SubClass {
            sub: *sub,
            sup: list_of(alloc, sup.as_slice())?,
        },
        Axiom::EquivalentClasses(classes) => {
            Axiom::EquivalentClasses(list_of(alloc, classes.as_slice())?)
        }
        Axiom::DisjointClasses(classes) => {
            Axiom::DisjointClasses(list_of(alloc, classes.as_slice())?)
        }
        Axiom::SubRole { sub, sup } => Axiom::SubRole {
            sub: *sub,
            sup: *sup,
        },
        Axiom::EquivalentRoles(roles) => {
            Axiom::EquivalentRoles(list_of(alloc, roles.as_slice())?)
        }
        Axiom::DisjointRoles(roles) => Axiom::DisjointRoles(list_of(alloc, roles.as_slice())?),
        Axiom::InverseRoles { one, two } => Axiom::InverseRoles {
            one: *one,
            two: *two,
        },
        Axiom::Domain { role, sup } => Axiom::Domain {
            role: *role,
            sup: list_of(alloc, sup.as_slice())?,
        },
        Axiom::Range { role, sup } => Axiom::Range {
            role: *role,
            sup: list_of(alloc, sup.as_slice())?,
        },
        Axiom::Symmetric(role) => Axiom::Symmetric(*role),
        Axiom::Asymmetric(role) => Axiom::Asymmetric(*role),
        Axiom::Irreflexive(role) => Axiom::Irreflexive(*role),
    })
}
