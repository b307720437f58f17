// Numbers of names, and names as intervals of numbers.
ghost use Rattle.std.specs.Prelude.{◌≡◌, ◌≤◌, ◌↔◌, ℕ, List as Items, length, All, Contains, IfOk};
ghost use Rattle.std.specs.List.Sorted.{IsStrictlyIncreasing};
ghost use Rattle.dl_terms.specs.Below.{RoleBelow, ConceptBelow};
ghost use Rattle.dl_terms.specs.Roles.{named};
ghost use Rattle.dl_terms.specs.declared.role.Basic.TheVariants.{Class};
ghost use Rattle.dl_terms.specs.declared.axiom.Axiom.{Axiom};
ghost use Rattle.dl_reach.specs.Digraph.{max_nodes};
ghost use Rattle.dl_hier.specs.Hierarchy.{IsHierarchyOf};
ghost use Rattle.dl_numbers.specs.Rule.{IsByRule};
ghost use Rattle.dl_epoch.specs.Translating.{AreNumbersOf, IsNumberOf};

use dl_hier::Hier;
use dl_intervals::Intervals;
use dl_numbers::Numbering;
use dl_terms::{List, NoMemory, set_of};
use std::alloc::Global;

/// Predicates as intervals of numbers of one epoch: classes, roles as they stand, and roles whose inverse is meant.
#[derive(Drop)]
pub struct Ranges {
    pub classes: Intervals,
    pub forward: Intervals,
    pub backward: Intervals,
}

/// The numbers of the classes of a hierarchy, by which of them are below which. It fails only for want of memory.
pub fn class_numbers(alloc: Global, hier: &Hier, classes: &[u32]) -> Result<Numbering, NoMemory>
    requires classes { classes.now ≡ hier.now.predicates.classes }
    requires ascending { IsStrictlyIncreasing classes.now }
    ensures { IfOk result (λ numbered. (axioms : Items Axiom) → IsHierarchyOf hier.now axioms
        → IsByRule classes.now (λ c d. ConceptBelow axioms (Class c) (Class d)) numbered) }
{
    let order = hier.class_order(alloc)?;
    Numbering::build(alloc, classes, &order)
}

/// The numbers of its roles, in the same way. It fails only for want of memory.
pub fn role_numbers(alloc: Global, hier: &Hier, roles: &[u32]) -> Result<Numbering, NoMemory>
    requires roles { roles.now ≡ hier.now.predicates.properties }
    requires ascending { IsStrictlyIncreasing roles.now }
    ensures { IfOk result (λ numbered. (axioms : Items Axiom) → IsHierarchyOf hier.now axioms
        → IsByRule roles.now (λ p q. RoleBelow axioms (named p) (named q)) numbered) }
{
    let order = hier.role_order(alloc)?;
    Numbering::build(alloc, roles, &order)
}

/// The intervals of the numbers of those names that have one.
pub fn ranges_of(
    alloc: Global,
    numbering: &Numbering,
    members: &[u32],
) -> Result<Intervals, NoMemory>
    ensures { IfOk result (AreNumbersOf numbering.now members.now) }
{
    let numbers = numbers_of(alloc, numbering, members)?;
    let set = set_of(numbers);
    match Intervals::of(alloc, set.as_slice()) {
        Ok(ranges) => Ok(ranges),
        Err(_) => Err(NoMemory),
    }
}

/// The numbers of those names that have one.
fn numbers_of(alloc: Global, numbering: &Numbering, members: &[u32]) -> Result<List<u32>, NoMemory>
    ensures exact { IfOk result (λ numbers.
        (n : ℕ) → Contains numbers n ↔ IsNumberOf numbering.now members.now n) }
    ensures few { IfOk result (All (λ n. n ≤ max_nodes)) }
{
    let mut numbers = List::new(alloc);
    for name in members {
        match numbering.number(*name) {
            Some(number) => numbers.push(number)?,
            None => {}
        }
    }
    Ok(numbers)
}
