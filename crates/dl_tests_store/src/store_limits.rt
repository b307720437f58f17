// Loads and commits at each limit, and one past it.
ghost use Rattle.std.specs.Prelude.{IfOk};
ghost use Rattle.dl_event.specs.Auxiliaries.{ItemHasNoAuxiliary, EventHasNoAuxiliary};

use crate::epoch::inclusion;
use crate::store::{Told, next_told, root_of};
use dl_core::{Edit, Event, Item, LoadFault, Refusal, Root};
use dl_terms::{Axiom, Base, Basic, Fact, List, NoMemory, Part, Role, Signature};
use dl_tests_base::axioms::list_of;
use std::alloc::Global;

/// How many facts are loaded at most.
const MAX_FACTS: u32 = 4_194_304;

/// The commit of one item that is added.
fn adding(alloc: Global, item: Item) -> Result<Event, NoMemory>
    requires { ItemHasNoAuxiliary item }
    ensures { IfOk result EventHasNoAuxiliary }
{
    let mut edits = List::new(alloc);
    edits.push(Edit { add: true, item })?;
    Ok(Event::Commit(edits))
}

/// The root after a commit that adds an item; none where it is told anything else than this.
fn added(alloc: Global, root: &Root, item: Item, told: &Told) -> Result<Option<Root>, NoMemory>
    requires { ItemHasNoAuxiliary item }
{
    let event = adding(alloc, item)?;
    next_told(alloc, root, 1, &event, told)
}

/// Whether a root has this version, so many epochs and so many rows.
fn has_counts(root: &Root, version: u32, epochs: usize, rows: u64) -> bool {
    let book = root.book();
    book.version == version && book.epochs.entries().len() == epochs && book.rows == rows
}

/// Whether a commit that adds an item is refused so, and leaves this version, so many epochs and so many rows.
fn refuses(
    alloc: Global,
    root: &Root,
    item: Item,
    why: Refusal,
    counts: (u32, usize, u64),
) -> Result<bool, NoMemory>
    requires { ItemHasNoAuxiliary item }
{
    match added(alloc, root, item, &Told::Refused(why))? {
        Some(next) => Ok(has_counts(&next, counts.0, counts.1, counts.2)),
        None => Ok(false),
    }
}

/// The names from 0 on, so many.
fn names(alloc: Global, count: u32) -> Result<List<u32>, NoMemory> {
    let mut names = List::new(alloc);
    for name in 0..count {
        names.push(name)?;
    }
    Ok(names)
}

/// The axiom that the class 0 is the same as itself, so many times, which weighs as much.
fn same(alloc: Global, count: u32) -> Result<Axiom, NoMemory> {
    let mut basics = List::new(alloc);
    for _ in 0..count {
        basics.push(Basic::Class(0))?;
    }
    Ok(Axiom::EquivalentClasses(basics))
}

/// So many facts, of different individuals in the class 0.
fn members(alloc: Global, count: u32) -> Result<List<Fact>, NoMemory> {
    let mut facts = List::new(alloc);
    for who in 0..count {
        facts.push(Fact::Is { class: 0, who })?;
    }
    Ok(facts)
}

/// The root of so many classes, an axiom of this weight, and so many facts; none where a condition of `load` isn't met.
fn root_with(
    alloc: Global,
    classes: u32,
    weight: u32,
    facts: u32,
) -> Result<Option<Root>, LoadFault> {
    let signature = Signature {
        classes: names(alloc, classes)?,
        roles: List::new(alloc),
    };
    let axiom = same(alloc, weight)?;
    let facts = members(alloc, facts)?;
    root_of(alloc, &[axiom], &signature, facts.as_slice(), 4)
}

/// Whether a load is refused so.
fn is_fault(loaded: &Result<Option<Root>, LoadFault>, fault: LoadFault) -> bool {
    match loaded {
        Ok(_) => false,
        Err(found) => *found == fault,
    }
}

/// Whether so many classes, an axiom of this weight and so many facts are refused so.
fn is_refused(alloc: Global, classes: u32, weight: u32, facts: u32, fault: LoadFault) -> bool {
    is_fault(&root_with(alloc, classes, weight, facts), fault)
}

#[test]
fn loads_past_a_limit_are_refused(rt: HostRuntime) {
    let alloc = rt.alloc();
    assert!(rt;
        is_refused(
            alloc,
            2,
            65_537,
            1,
            LoadFault::TooManyAxioms { weight: 65_537 }
        )
    );
    assert!(rt;
        is_refused(
            alloc,
            4_097,
            2,
            1,
            LoadFault::TooManyPredicates { count: 4_097 }
        )
    );
    // The first limit that is passed decides.
    assert!(rt;
        is_refused(
            alloc,
            4_097,
            65_537,
            1,
            LoadFault::TooManyAxioms { weight: 65_537 }
        )
    );
}

#[test]
fn a_load_of_too_many_facts_is_refused(rt: HostRuntime) {
    let fault = LoadFault::Full { rows: 4_194_305 };
    assert!(rt; is_refused(rt.alloc(), 1, 2, MAX_FACTS + 1, fault));
}

/// Whether 63 commits with a new class each open an epoch, and one more is refused.
fn opens_epochs(alloc: Global) -> Result<bool, LoadFault> {
    let Some(root) = root_with(alloc, 1, 2, 0)? else {
        return Ok(false);
    };
    let Some(root) = opened(alloc, root)? else {
        return Ok(false);
    };
    let why = Refusal::TooManyEpochs { kept: 64 };
    Ok(refuses(alloc, &root, Item::Class(64), why, (64, 64, 0))?)
}

/// The root after 63 commits with a new class each; none where one doesn't open an epoch.
fn opened(alloc: Global, root: Root) -> Result<Option<Root>, NoMemory> {
    let mut root = root;
    for k in 1..64 {
        let Some(next) = added(alloc, &root, Item::Class(k), &Told::Committed(k + 1, k + 1))? else {
            return Ok(None);
        };
        root = next;
    }
    Ok(Some(root))
}

#[test]
fn a_64th_new_class_is_refused(rt: HostRuntime) {
    assert!(rt; matches!(opens_epochs(rt.alloc()), Ok(true)));
}

/// Whether a commit to the weight of 65,536 is accepted, and then one past it refused.
fn meets_the_weight(alloc: Global) -> Result<bool, LoadFault> {
    let Some(root) = root_with(alloc, 2, 65_535, 0)? else {
        return Ok(false);
    };
    let axiom = Item::Axiom(inclusion(alloc, 0, 1)?);
    let Some(root) = added(alloc, &root, axiom, &Told::Committed(2, 2))? else {
        return Ok(false);
    };
    let axiom = Item::Axiom(inclusion(alloc, 1, 0)?);
    let why = Refusal::TooManyAxioms { weight: 65_537 };
    Ok(refuses(alloc, &root, axiom, why, (2, 2, 0))?)
}

/// Whether a commit to 4,096 predicates is accepted, and then one past it refused.
fn meets_the_predicates(alloc: Global) -> Result<bool, LoadFault> {
    let Some(root) = root_with(alloc, 4_095, 2, 1)? else {
        return Ok(false);
    };
    let Some(root) = added(alloc, &root, Item::Property(4_095), &Told::Committed(2, 2))? else {
        return Ok(false);
    };
    let why = Refusal::TooManyPredicates { count: 4_097 };
    Ok(refuses(alloc, &root, Item::Class(4_096), why, (2, 2, 1))?)
}

/// The root of so many classes, a role, and the axiom that the class 0 is twice in "some 0 in 0"; none where a
/// condition of `load` isn't met.
fn root_with_auxiliary(alloc: Global, classes: u32) -> Result<Option<Root>, LoadFault> {
    let signature = Signature {
        classes: names(alloc, classes)?,
        roles: names(alloc, 1)?,
    };
    let role = Role {
        base: Base::Named(0),
        inverse: false,
    };
    let axiom = Axiom::SubClass {
        sub: Basic::Class(0),
        sup: list_of(alloc, &[Part::Fill(role, 0), Part::Fill(role, 0)])?,
    };
    root_of(alloc, &[axiom], &signature, &[], 1)
}

/// Whether the role and the auxiliary role count beside 4,094 classes, and beside one more are refused.
fn counts_auxiliaries(alloc: Global) -> Result<bool, LoadFault> {
    let Some(root) = root_with_auxiliary(alloc, 4_094)? else {
        return Ok(false);
    };
    let why = Refusal::TooManyPredicates { count: 4_097 };
    Ok(refuses(alloc, &root, Item::Class(4_094), why, (1, 1, 0))?)
}

#[test]
fn auxiliaries_count_as_predicates(rt: HostRuntime) {
    let alloc = rt.alloc();
    assert!(rt; matches!(counts_auxiliaries(alloc), Ok(true)));
    let fault = LoadFault::TooManyPredicates { count: 4_097 };
    assert!(rt; is_fault(&root_with_auxiliary(alloc, 4_095), fault));
}

#[test]
fn commits_meet_the_limits_of_an_ontology(rt: HostRuntime) {
    assert!(rt; matches!(meets_the_weight(rt.alloc()), Ok(true)));
    assert!(rt; matches!(meets_the_predicates(rt.alloc()), Ok(true)));
}

/// Whether 4,194,304 facts are loaded, and one more is refused.
fn meets_the_rows(alloc: Global) -> Result<bool, LoadFault> {
    let Some(root) = root_with(alloc, 1, 2, MAX_FACTS)? else {
        return Ok(false);
    };
    let fact = Item::Fact(Fact::Is {
        class: 0,
        who: MAX_FACTS,
    });
    let why = Refusal::Full {
        kept: 4_194_304,
        new: 1,
    };
    Ok(refuses(alloc, &root, fact, why, (1, 1, 4_194_304))?)
}

/// Whether 4,194,304 facts are loaded, where one of them is there twice.
fn counts_doubles_once(alloc: Global) -> Result<bool, LoadFault> {
    let signature = Signature {
        classes: names(alloc, 1)?,
        roles: List::new(alloc),
    };
    let mut facts = members(alloc, MAX_FACTS)?;
    facts.push(Fact::Is { class: 0, who: 0 })?;
    match root_of(alloc, &[], &signature, facts.as_slice(), 4)? {
        Some(root) => Ok(has_counts(&root, 1, 1, 4_194_304)),
        None => Ok(false),
    }
}

#[test]
fn doubles_count_once(rt: HostRuntime) {
    assert!(rt; matches!(counts_doubles_once(rt.alloc()), Ok(true)));
}

/// Whether a commit to 4,194,304 rows is accepted, and then one past it refused.
fn fills_up(alloc: Global) -> Result<bool, LoadFault> {
    let Some(root) = root_with(alloc, 1, 2, MAX_FACTS - 1)? else {
        return Ok(false);
    };
    let fact = Fact::Is {
        class: 0,
        who: MAX_FACTS - 1,
    };
    let Some(root) = added(alloc, &root, Item::Fact(fact), &Told::Committed(2, 1))? else {
        return Ok(false);
    };
    let fact = Fact::Is {
        class: 0,
        who: MAX_FACTS,
    };
    let why = Refusal::Full {
        kept: 4_194_304,
        new: 1,
    };
    Ok(refuses(alloc, &root, Item::Fact(fact), why, (2, 1, 4_194_304))?)
}

#[test]
fn commits_meet_the_limit_of_rows(rt: HostRuntime) {
    assert!(rt; matches!(fills_up(rt.alloc()), Ok(true)));
}

#[test]
fn one_more_than_4194304_facts_is_refused(rt: HostRuntime) {
    assert!(rt; matches!(meets_the_rows(rt.alloc()), Ok(true)));
}
