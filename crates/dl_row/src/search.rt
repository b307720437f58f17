// Binary searches in rows in order.
ghost use Rattle.std.specs.Prelude.{List as Items, ◌∷◌, [], ◌≡◌, ◌+◌, ◌*◌, ◌<◌, ◌≤◌, ◌^◌, ℕ, filter, length};
ghost use Rattle.dl_row.specs.Lists.{Ascends};
ghost use Rattle.dl_row.specs.Rows.{row_cmp};
ghost use Rattle.dl_row.specs.Searching.{Bounds, Divides, IsRun, least_of, least_with};

use crate::{Kind, Row, Rows};
use dl_terms::Steps;
use std::sync::ledger::Ledger;

/// The least row with these five fields.
pub fn least_with(epoch: u32, kind: Kind, number: u32, s: u32, o: u32) -> Row
    ensures { result ≡ least_with epoch kind number s o }
{
    Row {
        kind,
        number,
        epoch,
        s,
        o,
        first: 0,
        last: 0,
    }
}

/// How many rows are less than a bound, where those before a place are. It looks at no more rows than the count of
/// rows has binary digits.
fn rows_below<L: Ledger, R: Rows<L>>(rows: &R, bound: &Row, from: u64, steps: &mut Steps<L>) -> u64
    requires { Bounds bound.now (R.rows rows.now) from (length (R.rows rows.now)) }
    ensures place { Divides bound.now (R.rows rows.now) result }
    ensures behind { from ≤ result }
    ensures few { (digits : ℕ) → length (R.rows rows.now) < 2 ^ digits → steps.new ≤ steps.old + digits }
{
    let (mut low, mut high) = (from, rows.count());
    while low < high {
        let middle = low + (high - low) / 2;
        let row = rows.look(middle, steps);
        if row.cmp(bound).is_lt() {
            low = middle + 1;
        } else {
            high = middle;
        }
    }
    low
}

/// How many rows are less than a bound.
pub fn place_of(rows: &[Row], bound: &Row) -> usize
    requires { Ascends row_cmp rows.now }
    ensures { Divides bound.now rows.now result }
{
    rows.partition_point(|row| row.cmp(bound).is_lt())
}

/// Between which places the rows of an epoch and a kind stand whose number is in an interval, by two searches.
pub fn run<L: Ledger, R: Rows<L>>(
    rows: &R,
    epoch: u32,
    kind: Kind,
    range: (u32, u32),
    steps: &mut Steps<L>,
) -> (u64, u64)
    requires small { range.1 < 2 ^ 31 }
    requires inhabited { range.0 ≤ range.1 }
    ensures run { IsRun epoch kind range (R.rows rows.now) result.0 result.1 }
    ensures few { (digits : ℕ) → length (R.rows rows.now) < 2 ^ digits → steps.new ≤ steps.old + 2 * digits }
{
    let low = rows_below(rows, &least_with(epoch, kind, range.0, 0, 0), 0, steps);
    let high = rows_below(
        rows,
        &least_with(epoch, kind, range.1 + 1, 0, 0),
        low,
        steps,
    );
    (low, high)
}
