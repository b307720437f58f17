// A row, and the order of rows.
ghost use Rattle.std.specs.Prelude.{◌≡◌};

use std::cmp::Ordering;

/// What a row speaks of: a class, or a role. Classes come first.
#[derive(Clone, Copy, PartialEq, Eq)]
pub enum Kind {
    Class,
    Role,
}

impl Kind {
    ghost use Rattle.dl_row.specs.Rows.{kind_number};

    /// Its place in the order of kinds: 0 or 1. It takes no memory.
    pub(crate) fn number(self) -> u32
        ensures { result ≡ kind_number self }
    {
        match self {
            Kind::Class => 0,
            Kind::Role => 1,
        }
    }
}

/// The end of a row that no version has ended.
pub const OPEN: u32 = u32::MAX;

/// A fact by the number that its predicate has in an epoch, with the versions at which it is visible: from `first` on,
/// and before `last`, which is `OPEN` where no version ended it. A class row has its individual as `s` and as `o`, a
/// role row the two ends. Rows are ordered by epoch, kind, number, `s`, `o`, `first` and `last`.
#[derive(Clone, Copy)]
pub struct Row {
    pub kind: Kind,
    pub number: u32,
    pub epoch: u32,
    pub s: u32,
    pub o: u32,
    pub first: u32,
    pub last: u32,
}

impl Row {
    ghost use Rattle.dl_row.specs.Rows.{visible};

    /// True where the row is visible at a version: `first <= v < last`. It takes no memory.
    pub fn visible(&self, v: u32) -> bool
        ensures { result ≡ visible v self.now }
    {
        self.first <= v && v < self.last
    }
}

impl PartialEq for Row {
    ghost use Rattle.std.specs.Cmp.{partial_equiv_from_equiv, eq_by_cmp_equiv};
    ghost use Rattle.std.specs.Ordering.{eq_by_cmp};
    ghost use Rattle.dl_row.specs.Rows.{row_cmp};
    ghost use Rattle.dl_row.specs.Laws.{row_total};

    ghost eq = { eq_by_cmp row_cmp };

    ghost laws = { partial_equiv_from_equiv (eq_by_cmp_equiv row_total) };

    fn eq(&self, other: &Row) -> bool {
        self.cmp(other).is_eq()
    }
}

impl Eq for Row {
    ghost use Rattle.std.specs.Cmp.{eq_by_cmp_equiv};
    ghost use Rattle.dl_row.specs.Laws.{row_total};

    ghost laws = { eq_by_cmp_equiv row_total };
}

impl PartialOrd for Row {
    ghost use Rattle.std.specs.Cmp.{partial_order_from_total};
    ghost use Rattle.std.specs.Ordering.{as_partial_cmp};
    ghost use Rattle.dl_row.specs.Rows.{row_cmp};
    ghost use Rattle.dl_row.specs.Laws.{row_total};

    ghost partial_cmp = { as_partial_cmp row_cmp };

    ghost laws = { partial_order_from_total row_total };

    fn partial_cmp(&self, other: &Row) -> Option<Ordering> {
        Some(self.cmp(other))
    }
}

impl Ord for Row {
    ghost use Rattle.std.specs.Prelude.{refl};
    ghost use Rattle.dl_row.specs.Rows.{row_cmp};
    ghost use Rattle.dl_row.specs.Laws.{row_total};

    ghost cmp = { row_cmp };

    ghost total = { row_total };

    ghost matches_partial_cmp = { λ q r. refl };

    ghost matches_eq = { λ q r. refl };

    fn cmp(&self, other: &Row) -> Ordering {
        let names = self.s.cmp(&other.s).then(self.o.cmp(&other.o));
        let versions = self
            .first
            .cmp(&other.first)
            .then(self.last.cmp(&other.last));
        self.epoch
            .cmp(&other.epoch)
            .then(self.kind.number().cmp(&other.kind.number()))
            .then(self.number.cmp(&other.number))
            .then(names)
            .then(versions)
    }
}
