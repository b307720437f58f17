// Copies of axioms and signatures.
ghost use Rattle.std.specs.Prelude.{◌≡◌, IfOk};

use dl_terms::{Axiom, List, NoMemory, Signature};
use std::alloc::Global;

/// The same items as a list.
fn copied_items<T: Copy + Drop>(alloc: Global, items: &List<T>) -> Result<List<T>, NoMemory>
    ensures { IfOk result (λ copy. copy ≡ items.now) }
{
    Ok(List::of(Vec::from_slice(alloc, items.as_slice())?))
}

/// The same axioms. It fails only for want of memory.
pub fn copied_axioms(alloc: Global, axioms: &[Axiom]) -> Result<List<Axiom>, NoMemory>
    ensures { IfOk result (λ copy. copy ≡ axioms.now) }
{
    let mut copy = List::new(alloc);
    for axiom in axioms {
        copy.push(copied_axiom(alloc, axiom)?)?;
    }
    Ok(copy)
}

/// The same signature. It fails only for want of memory.
pub fn copied_signature(alloc: Global, signature: &Signature) -> Result<Signature, NoMemory>
    ensures { IfOk result (λ copy. copy ≡ signature.now) }
{
    let classes = copied_items(alloc, &signature.classes)?;
    let roles = copied_items(alloc, &signature.roles)?;
    Ok(Signature { classes, roles })
}

/// The same axiom. It fails only for want of memory.
pub fn copied_axiom(alloc: Global, axiom: &Axiom) -> Result<Axiom, NoMemory>
    ensures { IfOk result (λ copy. copy ≡ «axiom».now) }
{
    match axiom {
        Axiom::SubClass { sub, sup } => Ok(Axiom::SubClass {
            sub: *sub,
            sup: copied_items(alloc, sup)?,
        }),
        Axiom::EquivalentClasses(classes) => {
            Ok(Axiom::EquivalentClasses(copied_items(alloc, classes)?))
        }
        Axiom::DisjointClasses(classes) => {
            Ok(Axiom::DisjointClasses(copied_items(alloc, classes)?))
        }
        Axiom::SubRole { sub, sup } => Ok(Axiom::SubRole {
            sub: *sub,
            sup: *sup,
        }),
        Axiom::EquivalentRoles(roles) => Ok(Axiom::EquivalentRoles(copied_items(alloc, roles)?)),
        Axiom::DisjointRoles(roles) => Ok(Axiom::DisjointRoles(copied_items(alloc, roles)?)),
        Axiom::InverseRoles { one, two } => Ok(Axiom::InverseRoles {
            one: *one,
            two: *two,
        }),
        Axiom::Domain { role, sup } => Ok(Axiom::Domain {
            role: *role,
            sup: copied_items(alloc, sup)?,
        }),
        Axiom::Range { role, sup } => Ok(Axiom::Range {
            role: *role,
            sup: copied_items(alloc, sup)?,
        }),
        Axiom::Symmetric(role) => Ok(Axiom::Symmetric(*role)),
        Axiom::Asymmetric(role) => Ok(Axiom::Asymmetric(*role)),
        Axiom::Irreflexive(role) => Ok(Axiom::Irreflexive(*role)),
    }
}
