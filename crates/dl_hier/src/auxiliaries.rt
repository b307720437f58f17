// The auxiliary roles that a normal form names, as often as it names them.
ghost use Rattle.std.specs.Prelude.{◌≡◌, ◌++◌, IfOk, OnOk};
ghost use Rattle.std.specs.List.{flat_map};
ghost use Rattle.dl_hier.specs.Rows.{role_auxiliaries, basic_auxiliaries, negative_auxiliaries, normal_auxiliaries};

use dl_terms::{Base, Basic, List, Negative, NoMemory, Normal, Role};
use std::alloc::Global;

/// The auxiliary roles that a normal form names.
pub(crate) fn auxiliaries_of(alloc: Global, normal: &Normal) -> Result<List<Base>, NoMemory>
    ensures { IfOk result (λ auxiliaries. auxiliaries ≡ normal_auxiliaries normal.now) }
{
    let mut auxiliaries = List::new(alloc);
    push_of_roles(&mut auxiliaries, normal.roles.as_slice())?;
    push_of_concepts(&mut auxiliaries, normal.concepts.as_slice())?;
    push_of_negatives(&mut auxiliaries, normal.negatives.as_slice())?;
    Ok(auxiliaries)
}

fn push_of_roles(auxiliaries: &mut List<Base>, rows: &[(Role, Role)]) -> Result<(), NoMemory>
    ensures { OnOk result (auxiliaries.new ≡
        auxiliaries.old ++ flat_map (λ p. role_auxiliaries p.0 ++ role_auxiliaries p.1) rows.now) }
{
    for (sub, sup) in rows {
        push_role(auxiliaries, *sub)?;
        push_role(auxiliaries, *sup)?;
    }
    Ok(())
}

fn push_of_concepts(auxiliaries: &mut List<Base>, rows: &[(Basic, Basic)]) -> Result<(), NoMemory>
    ensures { OnOk result (auxiliaries.new ≡
        auxiliaries.old ++ flat_map (λ p. basic_auxiliaries p.0 ++ basic_auxiliaries p.1) rows.now) }
{
    for (sub, sup) in rows {
        push_basic(auxiliaries, *sub)?;
        push_basic(auxiliaries, *sup)?;
    }
    Ok(())
}

fn push_of_negatives(auxiliaries: &mut List<Base>, rows: &[(u32, Negative)]) -> Result<(), NoMemory>
    ensures { OnOk result (auxiliaries.new ≡
        auxiliaries.old ++ flat_map (λ p. negative_auxiliaries p.1) rows.now) }
{
    for (_, negative) in rows {
        push_negative(auxiliaries, *negative)?;
    }
    Ok(())
}

fn push_negative(auxiliaries: &mut List<Base>, negative: Negative) -> Result<(), NoMemory>
    ensures { OnOk result (auxiliaries.new ≡ auxiliaries.old ++ negative_auxiliaries negative) }
{
    match negative {
        Negative::Basics(one, two) => {
            push_basic(auxiliaries, one)?;
            push_basic(auxiliaries, two)
        }
        Negative::Roles(one, two) => {
            push_role(auxiliaries, one)?;
            push_role(auxiliaries, two)
        }
        Negative::NoLoop(role) => push_role(auxiliaries, role),
    }
}

fn push_basic(auxiliaries: &mut List<Base>, basic: Basic) -> Result<(), NoMemory>
    ensures { OnOk result (auxiliaries.new ≡ auxiliaries.old ++ basic_auxiliaries basic) }
{
    match basic {
        Basic::Class(_) => Ok(()),
        Basic::SomeOf(role) => push_role(auxiliaries, role),
    }
}

fn push_role(auxiliaries: &mut List<Base>, role: Role) -> Result<(), NoMemory>
    ensures { OnOk result (auxiliaries.new ≡ auxiliaries.old ++ role_auxiliaries role) }
{
    match role.base {
        Base::Named(_) => Ok(()),
        Base::Auxiliary { .. } => auxiliaries.push(role.base),
    }
}
