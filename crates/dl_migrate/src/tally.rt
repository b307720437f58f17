// How many of some rows carry each epoch.
ghost use Rattle.std.specs.Prelude.{◌<◌, length, IfOk};
ghost use Rattle.dl_row.specs.Lists.{Ascends};
ghost use Rattle.dl_row.specs.Rows.{row_cmp};
ghost use Rattle.dl_migrate.specs.Tallies.{IsTally};
ghost use Rattle.dl_migrate.specs.Runs.{IsRun};

use dl_row::Row;
use dl_terms::{List, NoMemory};
use std::alloc::Global;

/// Of rows in order, each epoch that one of them carries, ascending, with how many do.
pub fn tally_of(alloc: Global, rows: &[Row]) -> Result<List<(u32, u64)>, NoMemory>
    requires { Ascends row_cmp rows.now }
    ensures { IfOk result (IsTally rows.now) }
{
    let mut tally = List::new(alloc);
    let mut from = 0;
    while from < rows.len() {
        let to = run_end(rows, from);
        tally.push((rows[from].epoch, (to - from) as u64))?;
        from = to;
    }
    Ok(tally)
}

/// The place behind the rows that carry the same epoch as the row at a place, from that place on.
fn run_end(rows: &[Row], from: usize) -> usize
    requires { from < length rows.now }
    ensures { IsRun rows.now from result }
{
    let mut to = from + 1;
    while to < rows.len() && rows[to].epoch == rows[from].epoch {
        to += 1;
    }
    to
}
