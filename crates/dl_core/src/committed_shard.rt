// A shard after a commit.
ghost use Rattle.std.specs.Prelude.{◌≡◌, ℕ, ◌+◌, ◌++◌, ◌<◌, ◌≤◌, ◌↔◌, List, map, length, slice_index_or, All, Contains, IfOk, MatchOption};
ghost use Rattle.std.specs.Arc.{arc_value};
ghost use Rattle.std.specs.List.Sorted.{IsStrictlyIncreasing};
ghost use Rattle.dl_terms.specs.declared.axiom.Fact.{Fact as AnyFact};
ghost use Rattle.dl_row.specs.Lists.{ordered};
ghost use Rattle.dl_row.specs.Rows.{row_cmp};
ghost use Rattle.dl_row.specs.Shards.{max_rows};
ghost use Rattle.dl_core.specs.Root.{epochs, shard};
ghost use Rattle.dl_core.specs.Next.{IsReady, ended, ended_at};
ghost use Rattle.dl_core.specs.Changes.{AreGone, IsPlaceIn, OneHere, NoneHere, with_ended, blank};

use crate::Root;
use crate::found::{first_end, place_of};
use dl_row::{PlainShard, Row};
use dl_terms::{Fact, List, NoMemory, set_of};
use std::alloc::Global;
use std::sync::Arc;

/// A shard where the open rows of some facts end at a version, and new rows come. Where neither is so, it is shared.
pub(crate) fn committed_shard(
    alloc: Global,
    root: &Root,
    i: u32,
    gone: &[Fact],
    new: &[Row],
    version: u32,
) -> Result<Arc<PlainShard, Global>, NoMemory>
    requires ready { IsReady root.now }
    requires inside { i < root.now.shards }
    requires fits { length (shard root.now i) + length new.now ≤ max_rows }
    ensures { (after : List AnyFact) → AreGone root.now after gone.now → IfOk result (λ s. arc_value s
        ≡ ordered row_cmp (map (ended (epochs root.now) after version) (shard root.now i) ++ new.now)) }
{
    // Its book says that the root stands for some history, so that each fact has one open row at most.
    let _book = root.book();
    let places = places_in(alloc, root, i, gone)?;
    if places.len() == 0 && new.len() == 0 {
        return root.shared_shard(i);
    }
    let shard = changed_shard(alloc, root.shard(i), places.as_slice(), new, version)?;
    match Arc::new(alloc, shard) {
        Ok(shared) => Ok(shared),
        Err(_) => Err(NoMemory),
    }
}

/// A shard where the rows at some places end at a version, and new rows come.
fn changed_shard(
    alloc: Global,
    shard: &PlainShard,
    places: &[u64],
    new: &[Row],
    version: u32,
) -> Result<PlainShard, NoMemory>
    requires ascending { IsStrictlyIncreasing places.now }
    requires within { All (λ place. place < length shard.now) places.now }
    requires fits { length shard.now + length new.now ≤ max_rows }
    ensures { IfOk result (λ changed. changed ≡ with_ended version places.now shard.now new.now) }
{
    let mut rows = ended_rows(alloc, shard, places, version)?.into_vec();
    rows.extend_from_slice(new)?;
    shard.with(alloc, places, rows.as_slice())
}

/// The rows at some places, as they end at a version.
fn ended_rows(
    alloc: Global,
    shard: &PlainShard,
    places: &[u64],
    version: u32,
) -> Result<List<Row>, NoMemory>
    requires { All (λ place. place < length shard.now) places.now }
    ensures { IfOk result (λ rows. rows
        ≡ map (λ place. ended_at version (slice_index_or shard.now place blank)) places.now) }
{
    let mut rows = List::of(Vec::with_capacity(alloc, places.len())?);
    for place in places {
        rows.push(ended_at(shard.row(*place), version))?;
    }
    Ok(rows)
}

/// A row that ends at a version.
fn ended_at(row: Row, version: u32) -> Row
    ensures { result ≡ ended_at version row }
{
    Row {
        kind: row.kind,
        number: row.number,
        epoch: row.epoch,
        s: row.s,
        o: row.o,
        first: row.first,
        last: version,
    }
}

/// The places, in a shard, of the open rows of some facts, ascending.
fn places_in(alloc: Global, root: &Root, i: u32, facts: &[Fact]) -> Result<List<u64>, NoMemory>
    requires { IsReady root.now }
    ensures ascending { IfOk result (λ places. IsStrictlyIncreasing places) }
    ensures exact { IfOk result (λ places. (place : ℕ) →
        Contains places place ↔ IsPlaceIn root.now i facts.now place) }
{
    let places = found_places(alloc, root, i, facts)?;
    Ok(set_of(places))
}

/// The places, in a shard, of the open rows of some facts.
fn found_places(alloc: Global, root: &Root, i: u32, facts: &[Fact]) -> Result<List<u64>, NoMemory>
    requires { IsReady root.now }
    ensures { IfOk result (λ places. (place : ℕ) →
        Contains places place ↔ IsPlaceIn root.now i facts.now place) }
{
    let mut places = List::new(alloc);
    for fact in facts {
        if let Some(place) = place_here(root, i, *fact) {
            places.push(place)?;
        }
    }
    Ok(places)
}

/// The place, in a shard, of the open row of a fact.
fn place_here(root: &Root, i: u32, fact: Fact) -> Option<u64>
    requires { IsReady root.now }
    ensures { MatchOption result (NoneHere root.now i fact) (OneHere root.now i fact) }
{
    // Its book says that the root stands for some history, so that each fact has one open row at most.
    let _book = root.book();
    if first_end(fact) % root.shards() == i {
        place_of(root, fact)
    } else {
        None
    }
}
