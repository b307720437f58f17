// The predicates that terms use, gathered one after the other.
ghost use Rattle.std.specs.Prelude.{◌≡◌, ◌++◌, OnOk, OnErr};
ghost use Rattle.std.specs.List.{flat_map};
ghost use Rattle.dl_epoch.specs.Predicates.{basic_classes, part_classes, axiom_classes, role_properties, basic_properties, part_properties, axiom_properties, fact_classes, fact_properties};

use dl_terms::{Axiom, Base, Basic, Fact, NoMemory, Part, Role, Signature};

/// Adds the predicate of a fact at the end. After `NoMemory` the signature is as before.
pub fn push_fact(signature: &mut Signature, fact: Fact) -> Result<(), NoMemory>
    ensures classes { OnOk result (signature.new.classes ≡ signature.old.classes ++ fact_classes fact) }
    ensures roles { OnOk result (signature.new.roles ≡ signature.old.roles ++ fact_properties fact) }
    ensures err { OnErr result (signature.new ≡ signature.old) }
{
    match fact {
        Fact::Is { class, .. } => signature.classes.push(class),
        Fact::Link { role, .. } => signature.roles.push(role),
    }
}

/// Adds the predicates of an axiom at the end. After `NoMemory` some of them may have been added.
pub fn push_axiom(signature: &mut Signature, stated: &Axiom) -> Result<(), NoMemory>
    ensures classes { OnOk result (signature.new.classes ≡ signature.old.classes ++ axiom_classes stated.now) }
    ensures roles { OnOk result (signature.new.roles ≡ signature.old.roles ++ axiom_properties stated.now) }
{
    match stated {
        Axiom::SubClass { sub, sup } => push_basic_and_parts(signature, *sub, sup.as_slice()),
        Axiom::EquivalentClasses(basics) => push_basics(signature, basics.as_slice()),
        Axiom::DisjointClasses(basics) => push_basics(signature, basics.as_slice()),
        Axiom::SubRole { sub, sup } => push_two_roles(signature, *sub, *sup),
        Axiom::EquivalentRoles(roles) => push_roles(signature, roles.as_slice()),
        Axiom::DisjointRoles(roles) => push_roles(signature, roles.as_slice()),
        Axiom::InverseRoles { one, two } => push_two_roles(signature, *one, *two),
        Axiom::Domain { role, sup } => push_role_and_parts(signature, *role, sup.as_slice()),
        Axiom::Range { role, sup } => push_role_and_parts(signature, *role, sup.as_slice()),
        Axiom::Symmetric(role) => push_role(signature, *role),
        Axiom::Asymmetric(role) => push_role(signature, *role),
        Axiom::Irreflexive(role) => push_role(signature, *role),
    }
}

fn push_two_roles(signature: &mut Signature, one: Role, two: Role) -> Result<(), NoMemory>
    ensures classes { OnOk result (signature.new.classes ≡ signature.old.classes) }
    ensures roles { OnOk result (signature.new.roles ≡
        signature.old.roles ++ (role_properties one ++ role_properties two)) }
{
    push_role(signature, one)?;
    push_role(signature, two)
}

fn push_basic_and_parts(
    signature: &mut Signature,
    basic: Basic,
    parts: &[Part],
) -> Result<(), NoMemory>
    ensures classes { OnOk result (signature.new.classes ≡
        signature.old.classes ++ (basic_classes basic ++ flat_map part_classes parts.now)) }
    ensures roles { OnOk result (signature.new.roles ≡
        signature.old.roles ++ (basic_properties basic ++ flat_map part_properties parts.now)) }
{
    push_basic(signature, basic)?;
    push_parts(signature, parts)
}

fn push_role_and_parts(
    signature: &mut Signature,
    role: Role,
    parts: &[Part],
) -> Result<(), NoMemory>
    ensures classes { OnOk result (signature.new.classes ≡
        signature.old.classes ++ flat_map part_classes parts.now) }
    ensures roles { OnOk result (signature.new.roles ≡
        signature.old.roles ++ (role_properties role ++ flat_map part_properties parts.now)) }
{
    push_role(signature, role)?;
    push_parts(signature, parts)
}

fn push_basics(signature: &mut Signature, basics: &[Basic]) -> Result<(), NoMemory>
    ensures classes { OnOk result (signature.new.classes ≡
        signature.old.classes ++ flat_map basic_classes basics.now) }
    ensures roles { OnOk result (signature.new.roles ≡
        signature.old.roles ++ flat_map basic_properties basics.now) }
{
    for basic in basics {
        push_basic(signature, *basic)?;
    }
    Ok(())
}

fn push_roles(signature: &mut Signature, roles: &[Role]) -> Result<(), NoMemory>
    ensures classes { OnOk result (signature.new.classes ≡ signature.old.classes) }
    ensures roles { OnOk result (signature.new.roles ≡ signature.old.roles ++ flat_map role_properties roles.now) }
{
    for role in roles {
        push_role(signature, *role)?;
    }
    Ok(())
}

fn push_parts(signature: &mut Signature, parts: &[Part]) -> Result<(), NoMemory>
    ensures classes { OnOk result (signature.new.classes ≡ signature.old.classes ++ flat_map part_classes parts.now) }
    ensures roles { OnOk result (signature.new.roles ≡ signature.old.roles ++ flat_map part_properties parts.now) }
{
    for part in parts {
        push_part(signature, *part)?;
    }
    Ok(())
}

fn push_part(signature: &mut Signature, part: Part) -> Result<(), NoMemory>
    ensures classes { OnOk result (signature.new.classes ≡ signature.old.classes ++ part_classes part) }
    ensures roles { OnOk result (signature.new.roles ≡ signature.old.roles ++ part_properties part) }
{
    match part {
        Part::Thing => Ok(()),
        Part::Class(class) => signature.classes.push(class),
        Part::Any(role) => push_role(signature, role),
        Part::Fill(role, class) => {
            push_role(signature, role)?;
            signature.classes.push(class)
        }
        Part::Not(basic) => push_basic(signature, basic),
    }
}

fn push_basic(signature: &mut Signature, basic: Basic) -> Result<(), NoMemory>
    ensures classes { OnOk result (signature.new.classes ≡ signature.old.classes ++ basic_classes basic) }
    ensures roles { OnOk result (signature.new.roles ≡ signature.old.roles ++ basic_properties basic) }
{
    match basic {
        Basic::Class(class) => signature.classes.push(class),
        Basic::SomeOf(role) => push_role(signature, role),
    }
}

fn push_role(signature: &mut Signature, role: Role) -> Result<(), NoMemory>
    ensures classes { OnOk result (signature.new.classes ≡ signature.old.classes) }
    ensures roles { OnOk result (signature.new.roles ≡ signature.old.roles ++ role_properties role) }
{
    match role.base {
        Base::Named(property) => signature.roles.push(property),
        Base::Auxiliary { role, .. } => signature.roles.push(role),
    }
}
