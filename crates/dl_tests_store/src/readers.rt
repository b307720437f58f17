// What readers lend and what a query is answered over them, at the version that is pinned.
ghost use Rattle.std.specs.Prelude.{IfOk};
ghost use Rattle.dl_terms.specs.Queries.{IsWellFormed};

use crate::epoch::covering;
use crate::history::{A, A_ANN, ANN, B};
use crate::row::{class_row, has};
use crate::store::{Asked, Said, Start, Told, after, inclusions, started};
use dl_answer::{Answer, ask};
use dl_core::{Book, LoadFault, Pin, Reads, Root, RootReads};
use dl_row::{Kind, OPEN, Row};
use dl_terms::{Atom, Axiom, List, NoMemory, Query, Term, Tuples};
use std::alloc::Global;

/// A is in B, and there is an A.
const ONE_BELOW: Start = Start {
    classes: &[A, B],
    below: &[(A, B)],
    roles: &[],
    facts: &[A_ANN],
    shards: 4,
};

/// Whether the epoch of a version has these axioms and classes.
fn has_ontology(book: &Book, version: u32, axioms: &[Axiom], classes: &[u32]) -> bool {
    let Some(place) = covering(&book.epochs, version) else {
        return false;
    };
    match book.epochs.entries().get(place as usize) {
        Some(entry) => {
            entry.epoch.axioms() == axioms && entry.epoch.signature().classes.as_slice() == classes
        }
        None => false,
    }
}

/// Whether the reader of stream 1 has a pin at this version, lends shard 0, which is empty, and after a fetch shard 1
/// with these rows.
fn reads<R: Reads>(reader: &mut R, version: u32, rows: &[Row]) -> bool {
    let pin = Pin { stream: 1, version };
    if reader.pin() != Some(pin) || reader.shards() != 4 || !has(reader.shard(), &[]) {
        return false;
    }
    reader.fetch(1);
    reader.pin() == Some(pin) && has(reader.shard(), rows)
}

/// The one row of the fact: A has the number 2, behind B.
const ONE_ROW: [Row; 1] = [class_row!(1, 2, ANN, 1, OPEN)];

/// Whether stream 1 is pinned to a version, and the root has the axiom at version 1 and none at version 2.
fn reads_both(alloc: Global, root: &Root, version: u32) -> Result<bool, NoMemory> {
    let axioms = inclusions(alloc, &[(A, B)])?;
    let mut reader = RootReads::new(root.copy()?, 1);
    Ok(
        reads(&mut reader, version, &ONE_ROW)
            && has_ontology(reader.book(), 1, axioms.as_slice(), &[A, B])
            && has_ontology(reader.book(), 2, &[], &[A, B]),
    )
}

/// The query for the members of a class.
fn members_of(alloc: Global, class: u32) -> Result<Query, NoMemory>
    ensures { IfOk result (λ query. IsWellFormed query) }
{
    let mut head = List::new(alloc);
    head.push(0)?;
    let mut atoms = List::new(alloc);
    atoms.push(Atom::Is {
        class,
        at: Term::Var(0),
    })?;
    Ok(Query {
        head,
        atoms,
        vars: 1,
    })
}

/// Whether these names are the answers, one to a tuple.
fn are_found(tuples: &Tuples, names: &[u32]) -> bool {
    if tuples.width() != 1 || tuples.len() != names.len() as u64 {
        return false;
    }
    for (i, name) in names.iter().enumerate() {
        if tuples.name(i as u64, 0) != *name {
            return false;
        }
    }
    true
}

/// Whether stream 1 is answered, at its pinned version, that these are the members of B.
fn finds(alloc: Global, root: &Root, pinned: u32, names: &[u32]) -> Result<bool, NoMemory> {
    let query = members_of(alloc, B)?;
    let mut reader = RootReads::new(root.copy()?, 1);
    match ask(alloc, &mut reader, &query, 10, None) {
        Ok(Answer::Found { version, tuples }) => {
            Ok(version == pinned && are_found(&tuples, names))
        }
        _ => Ok(false),
    }
}

/// The steps up to the first question of a stream, and those up to its next one.
const FIRST: [(Asked, Told); 2] = [
    (Asked::Pin, Told::Pinned(1)),
    (
        Asked::Commit(&[(false, Said::Below(A, B))]),
        Told::Committed(2, 2),
    ),
];

const NEXT: [(Asked, Told); 2] = [
    (Asked::Unpin, Told::Unpinned(1)),
    (Asked::Pin, Told::Pinned(2)),
];

/// Whether a stream with a pin reads the axiom that a commit took away, until it pins anew.
fn reads_what_it_pinned(alloc: Global) -> Result<bool, LoadFault> {
    let Some(root) = started(alloc, &ONE_BELOW)? else {
        return Ok(false);
    };
    let Some(first) = after(alloc, root, 1, &FIRST)? else {
        return Ok(false);
    };
    if !reads_both(alloc, &first, 1)? || !finds(alloc, &first, 1, &[ANN])? {
        return Ok(false);
    }
    let Some(next) = after(alloc, first, 1, &NEXT)? else {
        return Ok(false);
    };
    Ok(reads_both(alloc, &next, 2)? && finds(alloc, &next, 2, &[])?)
}

#[test]
fn a_pin_reads_its_version(rt: HostRuntime) {
    assert!(rt; matches!(reads_what_it_pinned(rt.alloc()), Ok(true)));
}
