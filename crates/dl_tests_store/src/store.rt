// Loads and lists of events as constants, and whether a stream is told what it should be.
ghost use Rattle.std.specs.Prelude.{All, IfOk};
ghost use Rattle.std.specs.Bool.{OnTrue};
ghost use Rattle.dl_terms.specs.Auxiliaries.{RoleHasNoAuxiliary, BasicHasNoAuxiliary, PartHasNoAuxiliary, HasNoAuxiliary};
ghost use Rattle.dl_epoch.specs.Known.{IsRoleIn, IsConceptIn, IsPartIn, IsAxiomIn};
ghost use Rattle.dl_core.specs.Loading.{IsFactIn};
ghost use Rattle.dl_event.specs.Auxiliaries.{ItemHasNoAuxiliary, EventHasNoAuxiliary};

use crate::epoch::inclusion;
use dl_core::{Edit, Event, Item, LoadFault, Looked, Refusal, Reply, Root, load, step};
use dl_intervals::ascends;
use dl_row::Row;
use dl_terms::{Axiom, Base, Basic, Fact, List, NoMemory, Part, Role, Signature};
use dl_tests_base::axioms::list_of;
use std::alloc::{AllocError, Global};

/// Whether a signature has a basic concept, which is a class.
fn has_basic(signature: &Signature, basic: &Basic) -> bool
    ensures no_auxiliary { OnTrue result (BasicHasNoAuxiliary basic.now) }
    ensures known { OnTrue result (IsConceptIn signature.now basic.now) }
{
    match basic {
        Basic::Class(class) => signature.classes.as_slice().contains(class),
        Basic::SomeOf(_) => false,
    }
}

/// Whether a signature has a role, which is no auxiliary role.
fn has_role(signature: &Signature, role: &Role) -> bool
    ensures no_auxiliary { OnTrue result (RoleHasNoAuxiliary role.now) }
    ensures known { OnTrue result (IsRoleIn signature.now role.now) }
{
    match role.base {
        Base::Named(name) => signature.roles.as_slice().contains(&name),
        Base::Auxiliary { .. } => false,
    }
}

/// Whether a signature has the names of a part, which is a class, or `ObjectSomeValuesFrom` of a role and a class.
fn has_part(signature: &Signature, part: &Part) -> bool
    ensures no_auxiliary { OnTrue result (PartHasNoAuxiliary part.now) }
    ensures known { OnTrue result (IsPartIn signature.now part.now) }
{
    match part {
        Part::Class(class) => signature.classes.as_slice().contains(class),
        Part::Fill(role, class) => {
            has_role(signature, role) && signature.classes.as_slice().contains(class)
        }
        _ => false,
    }
}

/// Whether a signature has the names of an axiom, which says what a class is in, or which classes are the same.
fn has_axiom(signature: &Signature, stated: &Axiom) -> bool
    ensures no_auxiliary { OnTrue result (HasNoAuxiliary stated.now) }
    ensures known { OnTrue result (IsAxiomIn signature.now stated.now) }
{
    match stated {
        Axiom::SubClass { sub, sup } => {
            has_basic(signature, sub) && sup.as_slice().iter().all(|part| has_part(signature, part))
        }
        Axiom::EquivalentClasses(basics) => basics
            .as_slice()
            .iter()
            .all(|basic| has_basic(signature, basic)),
        _ => false,
    }
}

/// Whether a signature has the predicate of a fact.
fn has_fact(signature: &Signature, fact: &Fact) -> bool
    ensures { OnTrue result (IsFactIn signature.now fact.now) }
{
    match fact {
        Fact::Is { class, .. } => signature.classes.as_slice().contains(class),
        Fact::Link { role, .. } => signature.roles.as_slice().contains(role),
    }
}

/// The root of a load; none where a condition of `load` isn't met.
pub(crate) fn root_of(
    alloc: Global,
    axioms: &[Axiom],
    signature: &Signature,
    facts: &[Fact],
    shards: u32,
) -> Result<Option<Root>, LoadFault> {
    if !ascends(signature.classes.as_slice()) || !ascends(signature.roles.as_slice()) {
        return Ok(None);
    }
    if shards < 1
        || shards > 64
        || !axioms.iter().all(|axiom| has_axiom(signature, axiom))
        || !facts.iter().all(|fact| has_fact(signature, fact))
    {
        return Ok(None);
    }
    Ok(Some(load(alloc, axioms, signature, facts, shards)?))
}

/// What is loaded, as constants: the classes and which of them are in others, the roles, the facts, and how many shards
/// there are.
pub(crate) struct Start {
    pub classes: &'static [u32],
    pub below: &'static [(u32, u32)],
    pub roles: &'static [u32],
    pub facts: &'static [Fact],
    pub shards: u32,
}

/// The axioms that classes are in others.
pub(crate) fn inclusions(alloc: Global, pairs: &[(u32, u32)]) -> Result<List<Axiom>, NoMemory> {
    let mut axioms = List::new(alloc);
    for pair in pairs {
        axioms.push(inclusion(alloc, pair.0, pair.1)?)?;
    }
    Ok(axioms)
}

/// The root of what is loaded; none where a condition of `load` isn't met.
pub(crate) fn started(alloc: Global, start: &Start) -> Result<Option<Root>, LoadFault> {
    let signature = Signature {
        classes: list_of(alloc, start.classes)?,
        roles: list_of(alloc, start.roles)?,
    };
    let axioms = inclusions(alloc, start.below)?;
    root_of(
        alloc,
        axioms.as_slice(),
        &signature,
        start.facts,
        start.shards,
    )
}

/// What an edit names, as a constant; the first form is that one class is in another.
pub(crate) enum Said {
    Below(u32, u32),
    Fact(Fact),
    Class(u32),
    Property(u32),
}

/// What a stream asks for, as a constant; `true` adds, and `false` removes.
pub(crate) enum Asked {
    Commit(&'static [(bool, Said)]),
    Pin,
    Unpin,
    Migrate(u32, u64),
    Sweep(u32, u64),
    Reclaim,
    Look(u64),
}

/// What an edit adds or removes.
fn item_of(alloc: Global, said: &Said) -> Result<Item, AllocError>
    ensures { IfOk result ItemHasNoAuxiliary }
{
    Ok(match *said {
        Said::Below(sub, sup) => Item::Axiom(inclusion(alloc, sub, sup)?),
        Said::Fact(fact) => Item::Fact(fact),
        Said::Class(class) => Item::Class(class),
        Said::Property(property) => Item::Property(property),
    })
}

/// An edit of a commit.
fn edit_of(alloc: Global, row: &(bool, Said)) -> Result<Edit, AllocError>
    ensures { IfOk result (λ e. ItemHasNoAuxiliary e.item) }
{
    let item = item_of(alloc, &row.1)?;
    Ok(Edit { add: row.0, item })
}

/// The edits of a commit.
fn edits_of(alloc: Global, rows: &[(bool, Said)]) -> Result<List<Edit>, NoMemory>
    ensures { IfOk result (All (λ e. ItemHasNoAuxiliary e.item)) }
{
    let mut edits = List::new(alloc);
    for row in rows {
        let edit = edit_of(alloc, row)?;
        edits.push(edit)?;
    }
    Ok(edits)
}

/// The event that a stream asks for.
fn event_of(alloc: Global, asked: &Asked) -> Result<Event, NoMemory>
    ensures { IfOk result EventHasNoAuxiliary }
{
    Ok(match asked {
        Asked::Commit(rows) => Event::Commit(edits_of(alloc, rows)?),
        Asked::Pin => Event::Pin,
        Asked::Unpin => Event::Unpin,
        Asked::Migrate(shard, n) => Event::Migrate {
            shard: *shard,
            n: *n,
        },
        Asked::Sweep(shard, n) => Event::Sweep {
            shard: *shard,
            n: *n,
        },
        Asked::Reclaim => Event::Reclaim,
        Asked::Look(rows) => Event::Look { rows: *rows },
    })
}

/// What a look shows, as constants: version, epoch, epochs, kept, visible and old rows; classes, roles and rows.
#[derive(Drop)]
pub(crate) struct Shown {
    pub counts: (u32, u32, u32, u64, u64, u64),
    pub classes: &'static [u32],
    pub roles: &'static [u32],
    pub rows: &'static [Row],
}

/// What a stream is told, as a constant.
#[derive(Drop)]
pub(crate) enum Told {
    Committed(u32, u32),
    Pinned(u32),
    Unpinned(u32),
    Migrated(u64, u64),
    Swept(u64, u64),
    Reclaimed(&'static [u32]),
    Looked(Shown),
    Refused(Refusal),
}

/// Whether a look shows so many versions, epochs and rows.
fn counts(looked: &Looked, wanted: &(u32, u32, u32, u64, u64, u64)) -> bool {
    looked.version == wanted.0
        && looked.epoch == wanted.1
        && looked.epochs == wanted.2
        && looked.kept == wanted.3
        && looked.visible == wanted.4
        && looked.behind == wanted.5
}

/// Whether a look shows this.
fn shows(looked: &Looked, shown: &Shown) -> bool {
    counts(looked, &shown.counts)
        && looked.classes.as_slice() == shown.classes
        && looked.roles.as_slice() == shown.roles
        && looked.rows.as_slice() == shown.rows
}

/// Whether a stream is told this.
fn is_told(reply: &Reply, told: &Told) -> bool {
    match reply {
        Reply::Committed { version, epoch } => {
            matches!(told, Told::Committed(v, e) if version == v && epoch == e)
        }
        Reply::Pinned { version } => matches!(told, Told::Pinned(v) if version == v),
        Reply::Unpinned { version } => matches!(told, Told::Unpinned(v) if version == v),
        Reply::Migrated { moved, left } => {
            matches!(told, Told::Migrated(m, l) if moved == m && left == l)
        }
        Reply::Swept { dropped, left } => {
            matches!(told, Told::Swept(d, l) if dropped == d && left == l)
        }
        Reply::Reclaimed { ids } => matches!(told, Told::Reclaimed(all) if ids.as_slice() == *all),
        Reply::Looked(looked) => matches!(told, Told::Looked(shown) if shows(looked, shown)),
        Reply::Refused(why) => matches!(told, Told::Refused(refusal) if why == refusal),
    }
}

/// The root after an event; none where the stream is told anything else than this, or the version is large.
pub(crate) fn next_told(
    alloc: Global,
    root: &Root,
    stream: u32,
    event: &Event,
    told: &Told,
) -> Result<Option<Root>, NoMemory>
    requires { EventHasNoAuxiliary event.now }
{
    if root.book().version > 1000 {
        return Ok(None);
    }
    let (next, reply) = step(alloc, root, stream, event)?;
    if !is_told(&reply, told) {
        return Ok(None);
    }
    Ok(Some(next))
}

/// The root after all that a stream asks for, in order; none where it is told anything else than the rows say.
pub(crate) fn after(
    alloc: Global,
    root: Root,
    stream: u32,
    rows: &[(Asked, Told)],
) -> Result<Option<Root>, NoMemory> {
    let mut root = root;
    for row in rows {
        let event = event_of(alloc, &row.0)?;
        let Some(next) = next_told(alloc, &root, stream, &event, &row.1)? else {
            return Ok(None);
        };
        root = next;
    }
    Ok(Some(root))
}
