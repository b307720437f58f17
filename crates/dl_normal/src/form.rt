ghost use Rattle.std.specs.Prelude.{◌≡◌, ◌<◌, ◌^◌, [], ◌∷◌, ◌++◌, length, map, None, IfOk, OnOk, slice_get};
ghost use Rattle.std.specs.List.{flat_map};
ghost use Rattle.dl_terms.specs.NormalForm.{axiom_rows, part_rows, negatives};
ghost use Rattle.dl_terms.specs.declared.axiom.Part.TheVariants.{Fill};
ghost use Rattle.dl_normal.specs.Indexed.{IsNormalForm};
ghost use Rattle.dl_normal.specs.Growing.{Gains};

use crate::operands::{push_pairs, push_ring};
use crate::roles::auxiliary_of;
use dl_terms::{Axiom, Basic, List, Negative, NoMemory, Normal, Part, Role};
use std::alloc::Global;

/// The normal form of the axioms: the rows of each in their order, sorted into role inclusions, concept inclusions
/// and negatives. Each negative is beside the index of its axiom in the list, from 0. Fails only for want of memory.
pub fn normal(alloc: Global, axioms: &[Axiom]) -> Result<Normal, NoMemory>
    requires { length axioms.now < 2 ^ 32 }
    ensures rows { IfOk result (IsNormalForm axioms.now) }

    // The axioms with these indexes and the negatives are the definition's list.
    ensures beside { IfOk result (λ n.
        map (λ p. (slice_get axioms.now p.0, p.1)) n.negatives ≡ negatives axioms.now None) }
{
    let mut normal = Normal {
        roles: List::new(alloc),
        concepts: List::new(alloc),
        negatives: List::new(alloc),
    };
    for (index, axiom) in axioms.iter().enumerate() {
        push_axiom(&mut normal, index as u32, axiom)?;
    }
    Ok(normal)
}

/// Adds the rows of the axiom at an index.
fn push_axiom(normal: &mut Normal, index: u32, axiom: &Axiom) -> Result<(), NoMemory>
    ensures { OnOk result (Gains index (axiom_rows «axiom».now) normal.old normal.new) }
{
    match axiom {
        Axiom::SubClass { sub, sup } => push_parts(normal, index, *sub, sup.as_slice()),
        Axiom::EquivalentClasses(classes) => push_ring(&mut normal.concepts, classes.as_slice()),
        Axiom::DisjointClasses(classes) => {
            push_pairs(&mut normal.negatives, index, classes.as_slice())
        }
        Axiom::SubRole { sub, sup } => normal.roles.push((*sub, *sup)),
        Axiom::EquivalentRoles(roles) => push_ring(&mut normal.roles, roles.as_slice()),
        Axiom::DisjointRoles(roles) => push_pairs(&mut normal.negatives, index, roles.as_slice()),
        Axiom::InverseRoles { one, two } => push_both(&mut normal.roles, *one, two.inverse()),
        Axiom::Domain { role, sup } => {
            push_parts(normal, index, Basic::SomeOf(*role), sup.as_slice())
        }
        Axiom::Range { role, sup } => {
            push_parts(normal, index, Basic::SomeOf(role.inverse()), sup.as_slice())
        }
        Axiom::Symmetric(role) => normal.roles.push((*role, role.inverse())),
        Axiom::Asymmetric(role) => {
            let negative = Negative::Roles(*role, role.inverse());
            normal.negatives.push((index, negative))
        }
        Axiom::Irreflexive(role) => normal.negatives.push((index, Negative::NoLoop(*role))),
    }
}

/// Adds that each of two roles is in the other.
fn push_both(roles: &mut List<(Role, Role)>, one: Role, two: Role) -> Result<(), NoMemory>
    ensures { OnOk result (roles.new ≡ roles.old ++ (one, two) ∷ (two, one) ∷ []) }
{
    roles.push((one, two))?;
    roles.push((two, one))
}

/// Adds that a basic concept is in each of the parts.
fn push_parts(normal: &mut Normal, index: u32, sub: Basic, parts: &[Part]) -> Result<(), NoMemory>
    ensures { OnOk result (Gains index (flat_map (part_rows sub) parts.now) normal.old normal.new) }
{
    for part in parts {
        push_part(normal, index, sub, *part)?;
    }
    Ok(())
}

/// Adds that a basic concept is in a part.
fn push_part(normal: &mut Normal, index: u32, sub: Basic, part: Part) -> Result<(), NoMemory>
    ensures { OnOk result (Gains index (part_rows sub part) normal.old normal.new) }
{
    match part {
        Part::Thing => Ok(()),
        Part::Class(class) => normal.concepts.push((sub, Basic::Class(class))),
        Part::Any(role) => normal.concepts.push((sub, Basic::SomeOf(role))),
        Part::Fill(role, class) => push_fill(normal, index, sub, role, class),
        Part::Not(basic) => normal.negatives.push((index, Negative::Basics(sub, basic))),
    }
}

/// Adds that a basic concept is in "some role in class", by the auxiliary role of the two.
fn push_fill(
    normal: &mut Normal,
    index: u32,
    sub: Basic,
    role: Role,
    class: u32,
) -> Result<(), NoMemory>
    ensures { OnOk result (Gains index (part_rows sub (Fill role class)) normal.old normal.new) }
{
    let auxiliary = auxiliary_of(role, class);
    normal.concepts.push((sub, Basic::SomeOf(auxiliary)))?;
    normal.roles.push((auxiliary, role))?;
    let end = Basic::SomeOf(auxiliary.inverse());
    normal.concepts.push((end, Basic::Class(class)))
}
