// The rows of axioms whose operands are a list: equivalence and disjointness.
ghost use Rattle.std.specs.Prelude.{◌≡◌, ◌++◌, map, OnOk};
ghost use Rattle.dl_terms.specs.NormalForm.{ring, pairs};
ghost use Rattle.dl_terms.specs.declared.role.Negative.{Negative};
ghost use Rattle.dl_terms.specs.declared.role.Negative.TheVariants.{Basics, Roles};

use dl_terms::{Basic, List, Negative, NoMemory, Role};

/// What a disjointness axiom has as operands.
pub(crate) trait Operand: Copy + Drop {
    ghost disjoint: { Self → Self → Negative };

    /// That nothing is in both.
    fn disjoint_from(self, other: Self) -> Negative
        ensures { result ≡ disjoint self other };
}

impl Operand for Basic {
    ghost disjoint = { λ b c. Basics b c };

    fn disjoint_from(self, other: Basic) -> Negative {
        Negative::Basics(self, other)
    }
}

impl Operand for Role {
    ghost disjoint = { λ r s. Roles r s };

    fn disjoint_from(self, other: Role) -> Negative {
        Negative::Roles(self, other)
    }
}

/// Adds each item with the next, and the last with the first.
pub(crate) fn push_ring<T: Copy + Drop>(
    rows: &mut List<(T, T)>,
    items: &[T],
) -> Result<(), NoMemory>
    ensures { OnOk result (rows.new ≡ rows.old ++ ring items.now) }
{
    let Some((first, rest)) = items.split_first() else {
        return Ok(());
    };
    let mut one = *first;
    for next in rest {
        rows.push((one, *next))?;
        one = *next;
    }
    rows.push((one, *first))
}

/// Adds that each item is disjoint from every later one, each beside the index of the axiom.
pub(crate) fn push_pairs<T: Operand>(
    negatives: &mut List<(u32, Negative)>,
    index: u32,
    items: &[T],
) -> Result<(), NoMemory>
    ensures { OnOk result (negatives.new ≡
        negatives.old ++ map (λ p. (index, T.disjoint p.0 p.1)) (pairs items.now)) }
{
    for (i, item) in items.iter().enumerate() {
        push_disjoint(negatives, index, *item, &items[i + 1..])?;
    }
    Ok(())
}

/// Adds that an item is disjoint from each of others.
fn push_disjoint<T: Operand>(
    negatives: &mut List<(u32, Negative)>,
    index: u32,
    item: T,
    others: &[T],
) -> Result<(), NoMemory>
    ensures { OnOk result (negatives.new ≡
        negatives.old ++ map (λ other. (index, T.disjoint item other)) others.now) }
{
    for other in others {
        negatives.push((index, item.disjoint_from(*other)))?;
    }
    Ok(())
}
