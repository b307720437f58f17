ghost use Rattle.std.specs.Prelude.{◌≡◌, ◌-◌, ◌*◌, ◌/◌, ◌^◌, length, min};
ghost use Rattle.std.specs.List.{flat_map};
ghost use Rattle.dl_terms.specs.NormalForm.{axiom_rows, part_rows};
ghost use Rattle.dl_terms.specs.declared.role.Basic.{Basic};
ghost use Rattle.dl_normal.specs.Weight.{total_weight};

use dl_terms::{Axiom, Part};

/// The sum over the axioms of the number of their rows in the normal form, at least 1 for each. A sum over 2^64 - 1
/// is given as that number. It takes no memory.
pub fn weight(axioms: &[Axiom]) -> u64
    ensures { result ≡ min (total_weight axioms.now) (2 ^ 64 - 1) }
{
    let mut total = 0u64;
    for axiom in axioms {
        total = total.saturating_add(count_of_rows(axiom).max(1));
    }
    total
}

/// How many rows an axiom has, at most 2^64 - 1.
fn count_of_rows(axiom: &Axiom) -> u64
    ensures { result ≡ min (length (axiom_rows «axiom».now)) (2 ^ 64 - 1) }
{
    match axiom {
        Axiom::SubClass { sup, .. } | Axiom::Domain { sup, .. } | Axiom::Range { sup, .. } => {
            count_of_part_rows(sup.as_slice())
        }
        Axiom::EquivalentClasses(classes) => classes.len() as u64,
        Axiom::DisjointClasses(classes) => count_of_pairs(classes.len() as u64),
        Axiom::EquivalentRoles(roles) => roles.len() as u64,
        Axiom::DisjointRoles(roles) => count_of_pairs(roles.len() as u64),
        Axiom::InverseRoles { .. } => 2,
        Axiom::SubRole { .. }
        | Axiom::Symmetric(_)
        | Axiom::Asymmetric(_)
        | Axiom::Irreflexive(_) => 1,
    }
}

/// How many rows the parts of a right side have, at most 2^64 - 1. The left side doesn't matter.
fn count_of_part_rows(parts: &[Part]) -> u64
    ensures { (b : Basic) → result ≡ min (length (flat_map (part_rows b) parts.now)) (2 ^ 64 - 1) }
{
    let mut total = 0u64;
    for part in parts {
        total = total.saturating_add(count_of_rows_of(part));
    }
    total
}

/// How many rows a part has. The left side doesn't matter.
fn count_of_rows_of(part: &Part) -> u64
    ensures { (b : Basic) → result ≡ length (part_rows b part.now) }
{
    match part {
        Part::Thing => 0,
        Part::Class(_) | Part::Any(_) | Part::Not(_) => 1,
        Part::Fill(..) => 3,
    }
}

/// How many pairs so many operands have, at most 2^64 - 1.
fn count_of_pairs(operands: u64) -> u64
    ensures { result ≡ min (operands * (operands - 1) / 2) (2 ^ 64 - 1) }
{
    let half = operands / 2;
    if operands % 2 == 0 {
        half.saturating_mul(operands.saturating_sub(1))
    } else {
        operands.saturating_mul(half)
    }
}
