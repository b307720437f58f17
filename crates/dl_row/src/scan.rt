// A scan of rows in order.
ghost use Rattle.std.specs.Prelude.{◌≡◌, ℕ, ◌+◌, ◌-◌, ◌++◌, ◌<◌, ◌≤◌, ◌^◌, length, map, filter, OnOk, OnErr};
ghost use Rattle.dl_row.specs.Rows.{visible};
ghost use Rattle.dl_row.specs.Shards.{ends_of, scanned, most_steps, AddsSome};
ghost use Rattle.dl_row.specs.Searching.{between};

use crate::search::run;
use crate::{Kind, Rows};
use dl_intervals::Intervals;
use dl_terms::{List, NoMemory, Pair, Steps};
use std::sync::ledger::Ledger;

/// Appends `(s, o)` of exactly the rows of an epoch and a kind that are visible at a version and whose number is in
/// the ranges, in order. It looks at each row of the epoch, the kind and the ranges at most once, and for each
/// interval besides at no more than twice as many as the count of rows has binary digits. It fails only for want of
/// memory; then `out` has a prefix of that more.
pub fn scan_rows<L: Ledger, R: Rows<L>>(
    rows: &R,
    epoch: u32,
    kind: Kind,
    ranges: &Intervals,
    version: u32,
    out: &mut List<Pair>,
    steps: &mut Steps<L>,
) -> Result<(), NoMemory>
    ensures ok { OnOk result (out.new ≡ out.old ++ scanned epoch kind ranges.now version (R.rows rows.now)) }
    ensures err { OnErr result (AddsSome out.old out.new (scanned epoch kind ranges.now version (R.rows rows.now))) }
    ensures bound { (digits : ℕ) → length (R.rows rows.now) < 2 ^ digits →
        steps.new ≤ steps.old + most_steps epoch kind ranges.now digits (R.rows rows.now) }
{
    // A count says that the rows are in order.
    let _count = rows.count();
    for i in 0..ranges.len() {
        let places = run(rows, epoch, kind, ranges.get(i), steps);
        push_visible(rows, places, version, out, steps)?;
    }
    Ok(())
}

/// Appends the ends of the rows between two places that are visible at a version: each row is a step.
fn push_visible<L: Ledger, R: Rows<L>>(
    rows: &R,
    places: (u64, u64),
    version: u32,
    out: &mut List<Pair>,
    steps: &mut Steps<L>,
) -> Result<(), NoMemory>
    requires order { places.0 ≤ places.1 }
    requires within { places.1 ≤ length (R.rows rows.now) }
    ensures ok { OnOk result (out.new ≡ out.old
        ++ map ends_of (filter (visible version) (between places.0 places.1 (R.rows rows.now)))) }
    ensures err { OnErr result (AddsSome out.old out.new
        (map ends_of (filter (visible version) (between places.0 places.1 (R.rows rows.now))))) }
    ensures few { steps.new ≤ steps.old + (places.1 - places.0) }
{
    for i in places.0..places.1 {
        let row = rows.look(i, steps);
        if row.visible(version) {
            out.push((row.s, row.o))?;
        }
    }
    Ok(())
}
