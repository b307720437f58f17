// The order of rows is total, and what compares equal is the same.
ghost use Rattle.std.specs.Prelude.{◌≡◌};
ghost use Rattle.std.specs.Cmp.{IsTotalOrder};
ghost use Rattle.std.specs.declared.cmp.Ordering.TheVariants.{Equal};
ghost use Rattle.dl_row.specs.Rows.{row_cmp};
ghost use Rattle.dl_row.specs.declared.row.Row.{Row};

/// The law of the order of rows, which is `Row`'s `Ord`: it is total, and rows that compare equal are the same.
pub fn rows_are_ordered()
    ensures total { IsTotalOrder row_cmp }
    ensures equal { (q r : Row) → row_cmp q r ≡ Equal → q ≡ r }
{}
