// Rows in order that are known by two calls alone.
ghost use Rattle.std.specs.Prelude.{◌≡◌, ◌+◌, ◌<◌, List as Items, length, slice_get};
ghost use Rattle.dl_row.specs.Lists.{Ascends};
ghost use Rattle.dl_row.specs.Rows.{row_cmp};
ghost use Rattle.dl_row.specs.declared.row.Row.{Row};

use crate::Row;
use dl_terms::Steps;
use std::sync::ledger::Ledger;

/// A list of rows in order, whoever keeps it. Neither call takes memory.
pub trait Rows<L: Ledger> {
    // The rows, in order.
    ghost rows: { Self → Items Row };

    /// How many rows there are. It looks at none.
    fn count(&self) -> u64
        ensures count { result ≡ length (rows self.now) }
        ensures up { Ascends row_cmp (rows self.now) };

    /// The row at a place, from 0. That is one step.
    fn look(&self, i: u64, steps: &mut Steps<L>) -> Row
        requires { i < length (rows self.now) }
        ensures row { slice_get (rows self.now) i ≡ Some result }
        ensures step { steps.new ≡ steps.old + 1 };
}
