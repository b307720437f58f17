// The plain shard.
ghost use Rattle.std.specs.Prelude.{◌≡◌, ℕ, ◌+◌, ◌++◌, ◌<◌, ◌≤◌, ◌^◌, [], length, slice_get};
ghost use Rattle.std.specs.Prelude.{All, IfOk, OnOk, OnErr};
ghost use Rattle.std.specs.List.{position};
ghost use Rattle.std.specs.List.Sorted.{IsStrictlyIncreasing};
ghost use Rattle.dl_row.specs.Lists.{Ascends, ordered, left_of};
ghost use Rattle.dl_row.specs.Rows.{row_cmp};
ghost use Rattle.dl_row.specs.Shards.{max_rows, is_at, is_open_at, scanned, most_steps, AddsSome};
ghost use Rattle.dl_row.specs.Searching.{Divides, least_with};

use crate::merge::merged;
use crate::scan::scan_rows;
use crate::search::{least_with, place_of};
use crate::{Kind, OPEN, Row, Rows};
use dl_intervals::Intervals;
use dl_terms::{List, NoMemory, Pair, Steps};
use std::alloc::Global;
use std::marker::Model;
use std::sync::ledger::Ledger;

/// A list of at most 4,194,304 rows in order. Contracts see it as that list.
#[derive(Drop)]
pub struct PlainShard {
    rows: Vec<Row>,
}

impl Model for PlainShard {
    ghost use Rattle.std.specs.Prelude.{List as Items, ◌≤◌, length};
    ghost use Rattle.dl_row.specs.Lists.{Ascends};
    ghost use Rattle.dl_row.specs.Rows.{row_cmp};
    ghost use Rattle.dl_row.specs.Shards.{max_rows};
    ghost use Rattle.dl_row.specs.declared.row.Row.{Row};

    ghost Value = { Items Row };

    ghost view = { λ shard. shard.rows.items };

    ghost invariant = { λ shard. Ascends row_cmp shard.rows.items × (length shard.rows.items ≤ max_rows) };
}

impl PlainShard {
    /// No row. It takes no memory.
    pub fn empty(alloc: Global) -> PlainShard
        ensures { result ≡ [] }
    {
        PlainShard {
            rows: Vec::new(alloc),
        }
    }

    /// How many rows there are. It takes no memory.
    pub fn len(&self) -> u64
        ensures count { result ≡ length self.now }
        ensures up { Ascends row_cmp self.now }
        ensures most { result ≤ max_rows }
    {
        self.rows.len() as u64
    }

    /// The row at a place, from 0. It takes no memory.
    pub fn row(&self, i: u64) -> Row
        requires { i < length self.now }
        ensures { slice_get self.now i ≡ Some result }
    {
        self.rows[i as usize]
    }

    /// The place of the first open row with these fields, or `None` where there is none. It takes no memory.
    pub fn find(&self, epoch: u32, kind: Kind, number: u32, s: u32, o: u32) -> Option<u64>
        ensures { result ≡ position (is_open_at epoch kind number s o) self.now }
    {
        let least = least_with(epoch, kind, number, s, o);
        first_open(&self.rows, place_of(&self.rows, &least), &least)
    }

    /// This shard's rows but those at some places, and new rows, in order. The places ascend strictly and are in
    /// range, the new rows stand in any order, and the result has at most 4,194,304 rows. It fails only for want of
    /// memory.
    pub fn with(&self, alloc: Global, without: &[u64], new: &[Row]) -> Result<PlainShard, NoMemory>
        requires ascending { IsStrictlyIncreasing without.now }
        requires within { All (λ place. place < length self.now) without.now }
        requires fits { length (left_of without.now self.now) + length new.now ≤ max_rows }
        ensures { IfOk result (λ shard. shard ≡ ordered row_cmp (left_of without.now self.now ++ new.now)) }
    {
        let mut added = Vec::from_slice(alloc, new)?;
        added.sort_unstable();
        if self.len() == 0 {
            return Ok(PlainShard { rows: added });
        }
        let rows = merged(alloc, &self.rows, without, &added)?;
        Ok(PlainShard { rows })
    }

    /// Appends `(s, o)` of exactly the rows of an epoch and a kind that are visible at a version and whose number is
    /// in the ranges, in order. A step is one row looked at: at most one for each row of the epoch, the kind and the
    /// ranges and, per interval, twice as many as the count of rows has binary digits. It fails only for want of
    /// memory; then `out` has a prefix of that more.
    pub fn scan<L: Ledger>(
        &self,
        epoch: u32,
        kind: Kind,
        ranges: &Intervals,
        version: u32,
        out: &mut List<Pair>,
        steps: &mut Steps<L>,
    ) -> Result<(), NoMemory>
        ensures ok { OnOk result (out.new ≡ out.old ++ scanned epoch kind ranges.now version self.now) }
        ensures err { OnErr result (AddsSome out.old out.new (scanned epoch kind ranges.now version self.now)) }
        ensures bound { (digits : ℕ) → length self.now < 2 ^ digits →
            steps.new ≤ steps.old + most_steps epoch kind ranges.now digits self.now }
    {
        scan_rows(self, epoch, kind, ranges, version, out, steps)
    }
}

impl<L: Ledger> Rows<L> for PlainShard {
    ghost rows = { λ shard. shard };

    fn count(&self) -> u64 {
        self.len()
    }

    fn look(&self, i: u64, steps: &mut Steps<L>) -> Row {
        steps.tick();
        self.row(i)
    }
}

/// The place of the first open row from a place on that has the five fields of another row, as long as rows have them.
fn first_open(rows: &[Row], from: usize, like: &Row) -> Option<u64>
    requires up { Ascends row_cmp rows.now }
    requires least { like.now ≡ least_with like.now.epoch like.now.kind like.now.number like.now.s like.now.o }
    requires divides { Divides like.now rows.now from }
    ensures { result ≡ position
        (is_open_at like.now.epoch like.now.kind like.now.number like.now.s like.now.o) rows.now }
{
    for i in from..rows.len() {
        if !is_like(&rows[i], like) {
            return None;
        }
        if rows[i].last == OPEN {
            return Some(i as u64);
        }
    }
    None
}

/// Whether a row has the five fields of another one.
fn is_like(row: &Row, like: &Row) -> bool
    ensures { result ≡ is_at like.now.epoch like.now.kind like.now.number like.now.s like.now.o row.now }
{
    row.epoch == like.epoch
        && row.kind.number() == like.kind.number()
        && row.number == like.number
        && row.s == like.s
        && row.o == like.o
}
