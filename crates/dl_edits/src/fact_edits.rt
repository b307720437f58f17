// What edits say of facts.
ghost use Rattle.std.specs.Prelude.{◌≡◌, ◌↔◌, Bool, cond, map, Contains, None, Some, IfOk, OnOk};
ghost use Rattle.std.specs.BTreeMap.{get};
ghost use Rattle.std.specs.List.Sorted.{IsStrictlySortedBy};
ghost use Rattle.dl_terms.specs.Order.{fact_cmp};
ghost use Rattle.dl_terms.specs.declared.axiom.Fact.{Fact as AnyFact};
ghost use Rattle.dl_edits.specs.Edits.{names_fact};
ghost use Rattle.dl_edits.specs.Decided.{Decide, said};

use dl_event::{Edit, Item};
use dl_terms::{Fact, List, NoMemory, facts_are_ordered};
use std::alloc::Global;
use std::collections::BTreeMap;

/// Each fact that an edit names, once, ascending, and whether it is there after the edits: the last edit that names it
/// decides.
pub fn decided_facts(alloc: Global, edits: &[Edit]) -> Result<List<(Fact, bool)>, NoMemory>
    ensures ascending { IfOk result (λ facts. IsStrictlySortedBy fact_cmp (map (λ f. f.0) facts)) }
    ensures exact { IfOk result (λ facts. (f : AnyFact) (there : Bool) →
        Contains facts (f, there) ↔ Decide edits.now f there) }
{
    let facts = said_facts(alloc, edits)?;
    facts_are_ordered();
    let pairs: Vec<(Fact, bool)> = facts.into_iter().collect(alloc)?;
    Ok(List::of(pairs))
}

/// Each fact that an edit names, with whether the last edit that names it adds it.
fn said_facts(alloc: Global, edits: &[Edit]) -> Result<BTreeMap<Fact, bool>, NoMemory>
    ensures { IfOk result (λ facts. (f : AnyFact) → get fact_cmp facts f ≡ said edits.now f None) }
{
    let mut facts = BTreeMap::new(alloc);
    for edit in edits {
        say(&mut facts, edit)?;
    }
    Ok(facts)
}

/// Takes what one edit says in place of what was said of its fact.
fn say(facts: &mut BTreeMap<Fact, bool>, edit: &Edit) -> Result<(), NoMemory>
    ensures { OnOk result ((f : AnyFact) → get fact_cmp facts.new f
        ≡ cond (names_fact f edit.now.item) (Some edit.now.add) (get fact_cmp facts.old f)) }
{
    facts_are_ordered();
    let Item::Fact(fact) = &edit.item else {
        return Ok(());
    };
    let Ok(_) = facts.insert(*fact, edit.add) else {
        return Err(NoMemory);
    };
    Ok(())
}
