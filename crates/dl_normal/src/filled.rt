ghost use Rattle.std.specs.Prelude.{◌≡◌, ◌++◌, List as Items, All, Contains, IfOk, OnOk, option_to_list};
ghost use Rattle.std.specs.List.{filter_map};
ghost use Rattle.dl_terms.specs.Auxiliaries.{HasNoAuxiliary};
ghost use Rattle.dl_terms.specs.NormalForm.{Row, rows_of};
ghost use Rattle.dl_terms.specs.declared.axiom.Axiom.{Axiom};
ghost use Rattle.dl_normal.specs.Filled.{parts_of, filled, filled_pairs, row_bases, IsOfAxioms, HasDistinct};

use dl_terms::{Axiom, List, NoMemory, Part, Role, set_of};
use std::alloc::Global;

/// How many different pairs of role and class are in parts "some role in class" of the axioms, which are as many
/// auxiliary roles. Fails only for want of memory.
pub fn auxiliaries(alloc: Global, axioms: &[Axiom]) -> Result<u64, NoMemory>
    ensures { IfOk result (HasDistinct (filled_pairs axioms.now)) }
{
    let mut pairs = List::new(alloc);
    for axiom in axioms {
        push_filled(&mut pairs, axiom)?;
    }
    Ok(set_of(pairs).len() as u64)
}

/// Adds the pairs of an axiom.
fn push_filled(pairs: &mut List<(Role, u32)>, axiom: &Axiom) -> Result<(), NoMemory>
    ensures { OnOk result (pairs.new ≡ pairs.old ++ filter_map filled (parts_of «axiom».now)) }
{
    match axiom {
        Axiom::SubClass { sup, .. } | Axiom::Domain { sup, .. } | Axiom::Range { sup, .. } => {
            push_filled_parts(pairs, sup.as_slice())
        }
        _ => Ok(()),
    }
}

/// Adds the pairs of parts.
fn push_filled_parts(pairs: &mut List<(Role, u32)>, parts: &[Part]) -> Result<(), NoMemory>
    ensures { OnOk result (pairs.new ≡ pairs.old ++ filter_map filled parts.now) }
{
    for part in parts {
        push_filled_part(pairs, *part)?;
    }
    Ok(())
}

/// Adds the pair of a part that has one.
fn push_filled_part(pairs: &mut List<(Role, u32)>, part: Part) -> Result<(), NoMemory>
    ensures { OnOk result (pairs.new ≡ pairs.old ++ option_to_list (filled part)) }
{
    match part {
        Part::Fill(role, class) => pairs.push((role, class)),
        Part::Thing | Part::Class(_) | Part::Any(_) | Part::Not(_) => Ok(()),
    }
}

/// The law of auxiliary roles: each role name in the rows of axioms that have no auxiliary role is one of the input,
/// or the auxiliary role of a pair of role and class in a part "some role in class" of these axioms. So no more
/// auxiliary roles are in the rows than `auxiliaries` counts.
pub fn auxiliaries_are_of_parts()
    ensures { (axioms : Items Axiom) → All HasNoAuxiliary axioms → (row : Row) →
        Contains (rows_of axioms) row → All (IsOfAxioms axioms) (row_bases row) }
{}
