// Rows of facts that are new at a version, shard by shard.
ghost use Rattle.std.specs.Prelude.{◌≡◌, ℕ, ◌<◌, [], map, replicate, vec_len, All, Contains, IfOk};
ghost use Rattle.dl_numbers.specs.Numbers.{HasNumber};
ghost use Rattle.dl_epoch.specs.Frozen.{from_version};
ghost use Rattle.dl_core.specs.Next.{row_for};
ghost use Rattle.dl_core.specs.Loading.{IsFactIn, AreParts};

use crate::found::first_end;
use dl_epoch::Epoch;
use dl_row::{Kind, OPEN, Row};
use dl_terms::{Fact, List, NoMemory};
use std::alloc::Global;

/// A row for each fact, visible from a version on, in the list of its shard.
pub(crate) fn rows_by_shard(
    alloc: Global,
    epoch: &Epoch,
    version: u32,
    facts: &[Fact],
    shards: u32,
) -> Result<Vec<List<Row>>, NoMemory>
    requires known { All (IsFactIn epoch.now.signature) facts.now }
    requires some { 0 < shards }
    ensures { (first : ℕ) → IfOk result (λ parts.
        AreParts shards (map (row_for (from_version first epoch.now) version) facts.now) parts.items) }
{
    let mut parts = empty_parts(alloc, facts, shards)?;
    for fact in facts {
        let row = row_of(epoch, version, *fact);
        parts[(row.s % shards) as usize].push(row)?;
    }
    Ok(parts)
}

/// An empty list for each shard, with room for the rows of its facts.
fn empty_parts(alloc: Global, facts: &[Fact], shards: u32) -> Result<Vec<List<Row>>, NoMemory>
    requires { 0 < shards }
    ensures { IfOk result (λ parts. parts.items ≡ replicate shards []) }
{
    let counts = counts_by_shard(alloc, facts, shards)?;
    let mut parts = List::of(Vec::with_capacity(alloc, counts.len())?);
    for count in &counts {
        parts.push(List::of(Vec::with_capacity(alloc, *count)?))?;
    }
    Ok(parts.into_vec())
}

/// How many facts have their row in each shard. It is used for room alone, so nothing more is promised.
fn counts_by_shard(alloc: Global, facts: &[Fact], shards: u32) -> Result<Vec<usize>, NoMemory>
    requires { 0 < shards }
    ensures { IfOk result (λ counts. vec_len counts ≡ shards) }
{
    let mut counts = vec![in alloc; 0usize; shards as usize]?;
    for fact in facts {
        let shard = (first_end(*fact) % shards) as usize;
        counts[shard] = counts[shard].saturating_add(1);
    }
    Ok(counts)
}

/// The row of a fact: its predicate by its number in the epoch, visible from a version on.
pub(crate) fn row_of(epoch: &Epoch, version: u32, fact: Fact) -> Row
    requires { IsFactIn epoch.now.signature fact }
    ensures { (first : ℕ) → result ≡ row_for (from_version first epoch.now) version fact }
{
    match fact {
        Fact::Is { class, who } => Row {
            kind: Kind::Class,
            number: class_number(epoch, class),
            epoch: epoch.id(),
            s: who,
            o: who,
            first: version,
            last: OPEN,
        },
        Fact::Link { role, from, to } => Row {
            kind: Kind::Role,
            number: role_number(epoch, role),
            epoch: epoch.id(),
            s: from,
            o: to,
            first: version,
            last: OPEN,
        },
    }
}

/// The number of a class of the signature.
fn class_number(epoch: &Epoch, name: u32) -> u32
    requires { Contains epoch.now.signature.classes name }
    ensures { HasNumber epoch.now.classes name result }
{
    match epoch.class_number(name) {
        Some(number) => number,
        None => unreachable!(),
    }
}

/// The number of a role of the signature.
fn role_number(epoch: &Epoch, name: u32) -> u32
    requires { Contains epoch.now.signature.roles name }
    ensures { HasNumber epoch.now.roles name result }
{
    match epoch.role_number(name) {
        Some(number) => number,
        None => unreachable!(),
    }
}
