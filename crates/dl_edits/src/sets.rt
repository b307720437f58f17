// Sets of axioms, facts and numbers, as lists that ascend strictly.
ghost use Rattle.std.specs.Bool.{OnTrue};
ghost use Rattle.std.specs.List.Sorted.{IsStrictlySortedBy};
ghost use Rattle.std.specs.Ordering.{nat_cmp};
ghost use Rattle.dl_terms.specs.Order.{axiom_cmp, fact_cmp};
ghost use Rattle.dl_terms.specs.Sets.{IsSetOf};

use dl_terms::{Axiom, Fact, List, axioms_are_ordered, facts_are_ordered, set_of};

/// True only where items ascend strictly, and then such a list needs no copy. It takes no memory.
fn ascends<T: Ord>(items: &[T]) -> bool
    ensures { OnTrue result (IsStrictlySortedBy T.cmp items.now) }
{
    for i in 1..items.len() {
        if !items[i - 1].cmp(&items[i]).is_lt() {
            return false;
        }
    }
    true
}

/// True only where axioms ascend strictly, so that they are their own set. It takes no memory.
pub fn axioms_ascend(axioms: &[Axiom]) -> bool
    ensures { OnTrue result (IsStrictlySortedBy axiom_cmp axioms.now) }
{
    axioms_are_ordered();
    ascends(axioms)
}

/// True only where facts ascend strictly, so that they are their own set. It takes no memory.
pub fn facts_ascend(facts: &[Fact]) -> bool
    ensures { OnTrue result (IsStrictlySortedBy fact_cmp facts.now) }
{
    facts_are_ordered();
    ascends(facts)
}

/// The set of axioms: each once, ascending strictly. It takes no memory.
pub fn axiom_set(axioms: List<Axiom>) -> List<Axiom>
    ensures { IsSetOf axiom_cmp result axioms }
{
    axioms_are_ordered();
    set_of(axioms)
}

/// The set of facts: each once, ascending strictly. It takes no memory.
pub fn fact_set(facts: List<Fact>) -> List<Fact>
    ensures { IsSetOf fact_cmp result facts }
{
    facts_are_ordered();
    set_of(facts)
}

/// The set of numbers: each once, ascending strictly. It takes no memory.
pub fn number_set(numbers: List<u32>) -> List<u32>
    ensures { IsSetOf nat_cmp result numbers }
{
    set_of(numbers)
}
