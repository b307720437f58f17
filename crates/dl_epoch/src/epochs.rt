// Which epoch covers a version.
ghost use Rattle.std.specs.Prelude.{◌≡◌, ◌<◌, ◌≤◌, ℕ, map, length, slice_index_or, Any, Some};
ghost use Rattle.std.specs.List.{AllPairs};
ghost use Rattle.dl_row.specs.Rows.{covering};
ghost use Rattle.dl_epoch.specs.Covering.{Kept, kept, epoch_in, AreEntries, CoversAt};

use crate::Entry;
use dl_terms::List;
use std::marker::Model;

/// The kept epochs in order: ids and first versions ascend strictly.
#[derive(Drop)]
pub struct Epochs {
    entries: List<Entry>,
}

impl Model for Epochs {
    ghost use Rattle.std.specs.Prelude.{List as Items, map};
    ghost use Rattle.dl_epoch.specs.Covering.{Kept, kept, AreEntries};

    ghost Value = { Items Kept };

    ghost view = { λ e. map kept e.entries };

    ghost invariant = { λ e. AreEntries (map kept e.entries) };
}

impl Epochs {
    /// These entries. Their ids and first versions ascend strictly. It takes no memory.
    pub fn of(entries: List<Entry>) -> Epochs
        requires { AreEntries (map kept entries) }
        ensures { result ≡ map kept entries }
    {
        Epochs { entries }
    }

    /// The entries, in order. It takes no memory.
    pub fn entries(&self) -> &[Entry]
        ensures entries { map kept result.now ≡ self.now }
        ensures ascending { AreEntries self.now }
    {
        self.entries.as_slice()
    }

    /// The place of the entry that covers a version: the last one that begins at it or before. There is one. It takes
    /// no memory.
    pub fn covering(&self, version: u32) -> u32
        requires { Any (λ e. e.first ≤ version) self.now }
        ensures place { CoversAt self.now version result }
        ensures epoch { (d : Kept) → covering (map epoch_in self.now) version
            ≡ Some (epoch_in (slice_index_or self.now result d)) }
    {
        covering_place(self.entries.as_slice(), version)
    }
}

/// The place of the last entry that begins at a version or before.
fn covering_place(entries: &[Entry], version: u32) -> u32
    requires one { Any (λ e. e.first ≤ version) (map kept entries.now) }
    requires firsts { AllPairs (λ d e. d.first < e.first) (map kept entries.now) }
    ensures { CoversAt (map kept entries.now) version result }
{
    let mut place = entries.len() - 1;
    while entries[place].first > version {
        place -= 1;
    }
    place as u32
}
