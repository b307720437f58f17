// The lists of probes, each made once for all probes that ask the same, of one query or of many.
ghost use Rattle.std.specs.Prelude.{◌≡◌, ◌↔◌, ◌<◌, ◌≤◌, ◌⊎◌, List as Items, length, vec_len, IfOk, IfSome, IsTrue};
ghost use Rattle.std.specs.List.{All};
ghost use Rattle.std.specs.List.Sorted.{IsSorted};
ghost use Rattle.std.specs.declared.option.Option.{Option as Maybe};
ghost use Rattle.dl_terms.specs.declared.axiom.Axiom.{Axiom};
ghost use Rattle.dl_terms.specs.declared.axiom.Fact.{Fact};
ghost use Rattle.dl_join.specs.Disjuncts.{AreSorted};
ghost use Rattle.dl_terms.specs.Order.{pair_cmp};
ghost use Rattle.dl_answer.specs.Probes.{AsksOneOf, AsksRole, AskAlike, HoldAlike};
ghost use Rattle.dl_answer.specs.Kept.{IsKept, IsSlotKept, AreKept, AreFirst};

use crate::slots::{Kept, KeptLists};
use dl_terms::{Base, Basic, List, Pair, Probe, Role};
use std::alloc::{AllocError, Global};
use std::cmp::Ordering;
use std::mem;

/// How many slots there are for lists.
const SLOTS: usize = 8192;

/// How far apart the slots of classes, of roles, of inverse roles and of pairs of a role begin.
const QUARTER: usize = 2048;

/// How many pairs may be kept for each row. No list has more than two for each, so lists are let go for want of room
/// only after as many pairs were listed as any of them has.
const PAIRS_A_ROW: usize = 4;

/// How many pairs and basic concepts more may be kept, so that few rows don't make the lists go.
const ROOM: usize = 1_048_576;

/// How often a list is done without before it is made.
const WITHOUT: usize = 8;

impl KeptLists {
    /// No list, and the room for a number of rows.
    pub(crate) fn new(alloc: Global, rows: usize) -> Result<KeptLists, AllocError>
        ensures { IfOk result (λ kept. (axioms : Items Axiom) (facts : Items Fact) → AreKept axioms facts kept) }
    {
        let most = rows.saturating_mul(PAIRS_A_ROW).saturating_add(ROOM);
        let slots = empty_slots(alloc)?;
        Ok(KeptLists {
            slots,
            room: most,
            most,
            without: vec![in alloc; 0usize; SLOTS]?,
        })
    }

    /// Moves the list out that is kept of a probe like this one. Another list in its slot is let go.
    pub(crate) fn take(&mut self, probe: &Probe) -> Option<List<Pair>>
        ensures kept { (axioms : Items Axiom) (facts : Items Fact) → AreKept axioms facts self.old
            → AreKept axioms facts self.new }
        ensures list { (axioms : Items Axiom) (facts : Items Fact) → AreKept axioms facts self.old
            → IfSome result (HoldAlike axioms facts probe.now) }
        ensures sorted { IfSome result (IsSorted pair_cmp) }
    {
        match self.empty(slot_of(probe)) {
            Some(kept) => pairs_for(kept, probe),
            None => None,
        }
    }

    /// How many pairs the list has that is kept of a probe like this one.
    pub(crate) fn size(&self, probe: &Probe) -> Option<usize> {
        match &self.slots[slot_of(probe)] {
            Some(kept) => size_for(kept, probe),
            None => None,
        }
    }

    /// Counts that the list of a probe is asked for. True where it was done without so often that it is to be made.
    pub(crate) fn is_due(&mut self, probe: &Probe) -> bool
        ensures { (axioms : Items Axiom) (facts : Items Fact) → AreKept axioms facts self.old
            → AreKept axioms facts self.new }
    {
        let slot = slot_of(probe);
        if self.without[slot] < WITHOUT {
            self.without[slot] += 1;
            return false;
        }
        self.without[slot] = 0;
        true
    }

    /// Keeps the list of a probe, in place of what is in its slot. All lists go first where it finds no room among
    /// them, and this one goes where it finds none at all.
    pub(crate) fn keep(
        &mut self,
        alloc: Global,
        probe: &Probe,
        pairs: List<Pair>,
    ) -> Result<(), AllocError>
        requires { IsSorted pair_cmp pairs }
        ensures { (axioms : Items Axiom) (facts : Items Fact) → AreKept axioms facts self.old
            → HoldAlike axioms facts probe.now pairs → AreKept axioms facts self.new }
    {
        let slot = slot_of(probe);
        self.empty(slot);
        let weight = weight_of(probe, pairs.as_slice());
        self.make_room(alloc, weight)?;
        if weight > self.room {
            return Ok(());
        }
        let probe = copy_of_probe(alloc, probe)?;
        self.room -= weight;
        self.slots[slot] = Some(Kept { probe, pairs });
        Ok(())
    }

    /// Lets all lists go where there is too little room for a weight.
    fn make_room(&mut self, alloc: Global, weight: usize) -> Result<(), AllocError>
        ensures { (axioms : Items Axiom) (facts : Items Fact) → AreKept axioms facts self.old
            → AreKept axioms facts self.new }
    {
        if weight <= self.room {
            return Ok(());
        }
        self.slots = empty_slots(alloc)?;
        self.room = self.most;
        Ok(())
    }

    /// Moves out what is in a slot.
    fn empty(&mut self, slot: usize) -> Option<Kept>
        requires { slot < SLOTS }
        ensures kept { (axioms : Items Axiom) (facts : Items Fact) → AreKept axioms facts self.old
            → AreKept axioms facts self.new }
        ensures one { (axioms : Items Axiom) (facts : Items Fact) → AreKept axioms facts self.old
            → IfSome result (IsKept axioms facts) }
    {
        let kept = mem::replace(&mut self.slots[slot], None);
        self.room = self.room.saturating_add(weight_in(&kept));
        kept
    }
}

/// Slots without lists.
fn empty_slots(alloc: Global) -> Result<Vec<Option<Kept>>, AllocError>
    ensures count { IfOk result (λ slots. vec_len slots ≡ SLOTS) }
    ensures none { IfOk result (λ slots. All (λ slot. slot ≡ None) slots.items) }
{
    let mut slots = Vec::new(alloc);
    for _slot in 0..SLOTS {
        slots.push(None)?;
    }
    Ok(slots)
}

/// The pairs that are kept, where a probe asks for them.
fn pairs_for(kept: Kept, probe: &Probe) -> Option<List<Pair>>
    ensures list { (axioms : Items Axiom) (facts : Items Fact) → IsKept axioms facts kept
        → IfSome result (HoldAlike axioms facts probe.now) }
    ensures sorted { IfSome result (IsSorted pair_cmp) }
{
    if ask_alike(&kept.probe, probe) {
        Some(kept.pairs)
    } else {
        None
    }
}

/// How many pairs are kept, where a probe asks for them.
fn size_for(kept: &Kept, probe: &Probe) -> Option<usize> {
    if ask_alike(&kept.probe, probe) {
        Some(kept.pairs.len())
    } else {
        None
    }
}

/// Keeps the lists of the first of some probes.
pub(crate) fn keep_all(
    alloc: Global,
    probes: &[Probe],
    lists: List<List<Pair>>,
    kept: &mut KeptLists,
) -> Result<(), AllocError>
    requires few { length lists ≤ length probes.now }
    requires sorted { AreSorted lists }
    ensures { (axioms : Items Axiom) (facts : Items Fact) → AreKept axioms facts kept.old
        → AreFirst axioms facts probes.now lists → AreKept axioms facts kept.new }
{
    let mut rest = lists.into_vec();
    while let Some(pairs) = rest.pop() {
        kept.keep(alloc, &probes[rest.len()], pairs)?;
    }
    Ok(())
}

/// The list of an earlier probe that asks the same, where there is one, of the lists of the first of some probes.
pub(crate) fn earlier<'a>(
    probes: &[Probe],
    lists: &'a [List<Pair>],
    probe: &Probe,
) -> Option<&'a [Pair]>
    requires few { length lists.now ≤ length probes.now }
    requires sorted { AreSorted lists.now }
    ensures list { (axioms : Items Axiom) (facts : Items Fact) → AreFirst axioms facts probes.now lists.now
        → IfSome result (λ pairs. HoldAlike axioms facts probe.now pairs.now) }
    ensures sorted { IfSome result (λ pairs. IsSorted pair_cmp pairs.now) }
{
    for (k, pairs) in lists.iter().enumerate() {
        if ask_alike(&probes[k], probe) {
            return Some(pairs.as_slice());
        }
    }
    None
}

/// The weight of what is in a slot.
fn weight_in(slot: &Option<Kept>) -> usize {
    match slot {
        Some(kept) => weight_of(&kept.probe, kept.pairs.as_slice()),
        None => 0,
    }
}

/// How many pairs a list has, and how many basic concepts its probe.
fn weight_of(probe: &Probe, pairs: &[Pair]) -> usize {
    match probe {
        Probe::AnyOf { basics, .. } => basics.len().saturating_add(pairs.len()),
        Probe::Joined { .. } => pairs.len(),
    }
}

/// The slot of the list of what a probe asks. Classes whose numbers follow one another have different ones.
fn slot_of(probe: &Probe) -> usize
    ensures { result < SLOTS }
{
    let number = match probe {
        Probe::AnyOf { basics, .. } => number_of(basics.as_slice()),
        Probe::Joined { role, .. } => number_after(QUARTER * 3, *role),
    };
    number % SLOTS
}

/// A number of some basic concepts, which tells those alone apart whose first one or whose count differs.
fn number_of(basics: &[Basic]) -> usize {
    match basics.first() {
        Some(basic) => number_of_basic(*basic).saturating_add(basics.len()),
        None => 0,
    }
}

fn number_of_basic(basic: Basic) -> usize {
    match basic {
        Basic::Class(class) => number_after(0, class),
        Basic::SomeOf(role) => number_of_role(role),
    }
}

fn number_of_role(role: Role) -> usize {
    let start = if role.inverse { QUARTER * 2 } else { QUARTER };
    match role.base {
        Base::Named(name) => number_after(start, name),
        Base::Auxiliary { class, .. } => number_after(start, class),
    }
}

/// A number that is so much greater.
fn number_after(start: usize, name: u32) -> usize {
    start.saturating_add(name as usize)
}

/// A copy of a probe.
fn copy_of_probe(alloc: Global, probe: &Probe) -> Result<Probe, AllocError>
    ensures { IfOk result (λ copy. copy ≡ probe.now) }
{
    match probe {
        Probe::AnyOf { basics, at } => {
            let basics = copy_of(alloc, basics.as_slice())?;
            Ok(Probe::AnyOf { basics, at: *at })
        }
        Probe::Joined { role, from, to } => Ok(Probe::Joined {
            role: *role,
            from: *from,
            to: *to,
        }),
    }
}

/// A copy of a list.
pub(crate) fn copy_of<T: Copy + Drop>(alloc: Global, items: &[T]) -> Result<List<T>, AllocError>
    ensures { IfOk result (λ copy. copy ≡ items.now) }
{
    let copy = items.iter().copied().collect(alloc)?;
    Ok(List::of(copy))
}

/// Whether two probes ask the same, of whatever terms.
fn ask_alike(one: &Probe, other: &Probe) -> bool
    ensures { IsTrue result ↔ AskAlike one.now other.now }
{
    match one {
        Probe::AnyOf { basics, .. } => asks_one_of(other, basics.as_slice()),
        Probe::Joined { role, .. } => asks_role(other, *role),
    }
}

/// Whether a probe asks for one of these basic concepts.
fn asks_one_of(probe: &Probe, basics: &[Basic]) -> bool
    ensures { IsTrue result ↔ AsksOneOf basics.now probe.now }
{
    match probe {
        Probe::AnyOf { basics: others, .. } => are_same(basics, others.as_slice()),
        Probe::Joined { .. } => false,
    }
}

/// Whether a probe asks for this role.
fn asks_role(probe: &Probe, role: u32) -> bool
    ensures { IsTrue result ↔ AsksRole role probe.now }
{
    match probe {
        Probe::AnyOf { .. } => false,
        Probe::Joined { role: other, .. } => role == *other,
    }
}

/// Whether two lists of basic concepts are the same.
fn are_same(ones: &[Basic], others: &[Basic]) -> bool
    ensures { IsTrue result ↔ (ones.now ≡ others.now) }
{
    match ones.cmp(others) {
        Ordering::Less => false,
        Ordering::Equal => true,
        Ordering::Greater => false,
    }
}
