// Rows in order, merged in one pass.
ghost use Rattle.std.specs.Prelude.{◌≡◌, ◌++◌, ◌∷◌, ◌≤◌, List, drop, length, IfOk};
ghost use Rattle.std.specs.Bool.{OnTrue, OnFalse};
ghost use Rattle.std.specs.List.Sorted.{IsStrictlyIncreasing};
ghost use Rattle.dl_row.specs.Lists.{Ascends, ordered, left_of};
ghost use Rattle.dl_row.specs.Rows.{row_cmp};
ghost use Rattle.dl_row.specs.Merging.{IsLessAt, IsNotLessAt, HasAt, HasNotAt};
ghost use Rattle.dl_row.specs.declared.row.Row.{Row};

use crate::Row;
use std::alloc::{AllocError, Global};

/// The rows but those at some places, together with new ones, in order: both lists ascend, and so do the places.
pub fn merged(
    alloc: Global,
    rows: &[Row],
    places: &[u64],
    new: &[Row],
) -> Result<Vec<Row>, AllocError>
    requires rows { Ascends row_cmp rows.now }
    requires places { IsStrictlyIncreasing places.now }
    requires new { Ascends row_cmp new.now }
    ensures { IfOk result (λ merged.
        merged.items ≡ ordered row_cmp (left_of places.now rows.now ++ new.now)) }
{
    let mut merged = Vec::with_capacity(alloc, rows.len())?;
    let (mut place, mut at) = (0, 0);
    for (i, row) in rows.iter().enumerate() {
        if is_place(places, place, i) {
            place += 1;
        } else {
            at = push_up_to(&mut merged, new, at, row)?;
        }
    }
    merged.extend_from_slice(&new[at..])?;
    Ok(merged)
}

/// Whether the next of some places is an index.
fn is_place(places: &[u64], place: usize, i: usize) -> bool
    ensures yes { OnTrue result (HasAt places.now place i) }
    ensures no { OnFalse result (HasNotAt places.now place i) }
{
    place < places.len() && places[place] == i as u64
}

/// Adds those new rows, from a place on, that are less than a row, and then the row. It gives the place of the next
/// new row.
fn push_up_to(
    merged: &mut Vec<Row>,
    new: &[Row],
    from: usize,
    row: &Row,
) -> Result<usize, AllocError>
    requires from { from ≤ length new.now }
    requires new { Ascends row_cmp new.now }
    ensures within { IfOk result (λ to. to ≤ length new.now) }
    ensures written { IfOk result (λ to. (rest : List Row) → Ascends row_cmp (row.now ∷ rest)
        → merged.old.items ++ ordered row_cmp (row.now ∷ rest ++ drop from new.now)
        ≡ merged.new.items ++ ordered row_cmp (rest ++ drop to new.now)) }
{
    let mut at = from;
    while is_less(new, at, row) {
        merged.push(new[at])?;
        at += 1;
    }
    merged.push(*row)?;
    Ok(at)
}

/// Whether there is a row at a place, and it is less than another one.
fn is_less(rows: &[Row], at: usize, row: &Row) -> bool
    ensures yes { OnTrue result (IsLessAt rows.now at row.now) }
    ensures no { OnFalse result (IsNotLessAt rows.now at row.now) }
{
    at < rows.len() && rows[at].cmp(row).is_lt()
}
