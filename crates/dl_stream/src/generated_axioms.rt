// The ontology of the generated input.
ghost use Rattle.std.specs.Prelude.{◌≡◌, ◌++◌, ◌∷◌, [], ◌+◌, ◌<◌, ◌≤◌, map, IfOk, OnOk};
ghost use Rattle.std.specs.List.{range_with_len};
ghost use Rattle.dl_terms.specs.Roles.{named};
ghost use Rattle.dl_terms.specs.declared.role.Basic.TheVariants.{Class};
ghost use Rattle.dl_terms.specs.declared.axiom.Axiom.TheVariants.{SubClass};
ghost use Rattle.dl_stream.specs.Generator.{class_below, role_below, class_filled, first_domain, generated_axioms, role};

use dl_terms::{Axiom, Base, Basic, List, NoMemory, Part, Role};
use std::alloc::Global;

/// A class is below one part.
pub(crate) fn sub_class(alloc: Global, class: u32, part: Part) -> Result<Axiom, NoMemory>
    ensures { IfOk result (λ sub. sub ≡ SubClass (Class class) (part ∷ [])) }
{
    let mut sup = List::new(alloc);
    sup.push(part)?;
    Ok(Axiom::SubClass {
        sub: Basic::Class(class),
        sup,
    })
}

/// The role with a number among the roles.
fn role_of(size: u32, j: u32) -> Role
    requires few { size ≤ 100000 }
    requires role { j < 8 }
    ensures { result ≡ named (role size j) }
{
    Role {
        base: Base::Named(32 + size + j),
        inverse: false,
    }
}

/// Adds that classes are below classes.
fn push_classes(alloc: Global, axioms: &mut List<Axiom>) -> Result<(), NoMemory>
    ensures { OnOk result (axioms.new ≡ axioms.old ++ map class_below (range_with_len 1 31)) }
{
    for i in 1..32 {
        axioms.push(sub_class(alloc, i, Part::Class(i / 2))?)?;
    }
    Ok(())
}

/// Adds that roles are below roles.
fn push_roles(size: u32, axioms: &mut List<Axiom>) -> Result<(), NoMemory>
    requires { size ≤ 100000 }
    ensures { OnOk result (axioms.new ≡ axioms.old ++ map (role_below size) (range_with_len 1 7)) }
{
    for j in 1..8 {
        axioms.push(Axiom::SubRole {
            sub: role_of(size, j),
            sup: role_of(size, j / 2),
        })?;
    }
    Ok(())
}

/// Adds that members of classes have neighbours in classes.
fn push_filled(alloc: Global, size: u32, axioms: &mut List<Axiom>) -> Result<(), NoMemory>
    requires { size ≤ 100000 }
    ensures { OnOk result (axioms.new ≡ axioms.old ++ map (class_filled size) (range_with_len 0 8)) }
{
    for j in 0..8 {
        let filled = Part::Fill(role_of(size, j), 4 * j + 1);
        axioms.push(sub_class(alloc, 4 * j, filled)?)?;
    }
    Ok(())
}

/// The domain of the first role.
fn first_domain(alloc: Global, size: u32) -> Result<Axiom, NoMemory>
    requires { size ≤ 100000 }
    ensures { IfOk result (λ domain. domain ≡ first_domain size) }
{
    let mut sup = List::new(alloc);
    sup.push(Part::Class(3))?;
    Ok(Axiom::Domain {
        role: role_of(size, 0),
        sup,
    })
}

/// All axioms.
pub(crate) fn generated_axioms(alloc: Global, size: u32) -> Result<List<Axiom>, NoMemory>
    requires { size ≤ 100000 }
    ensures { IfOk result (λ axioms. axioms ≡ generated_axioms size) }
{
    let mut axioms = List::new(alloc);
    push_classes(alloc, &mut axioms)?;
    push_roles(size, &mut axioms)?;
    push_filled(alloc, size, &mut axioms)?;
    axioms.push(first_domain(alloc, size)?)?;
    Ok(axioms)
}
