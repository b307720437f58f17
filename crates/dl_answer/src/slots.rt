// Slots for the lists of probes.
ghost use Rattle.std.specs.Prelude.{◌≡◌, vec_len};
ghost use Rattle.std.specs.List.Sorted.{IsSorted};
ghost use Rattle.dl_terms.specs.Order.{pair_cmp};

use dl_terms::{List, Pair, Probe};

/// A probe, and the sorted list of its pairs.
#[derive(Drop)]
pub(crate) struct Kept {
    pub probe: Probe,
    pub pairs: List<Pair>,
    ghost sorted: { IsSorted pair_cmp pairs },
}

/// Lists of probes. What a probe asks decides the slot of its list, and a slot has one list at most. Where a list
/// finds no room, all that were kept go. A list is moved out while it is read, and moved back then.
#[derive(Drop)]
pub(crate) struct KeptLists {
    pub slots: Vec<Option<Kept>>,
    /// How many more pairs and basic concepts may be kept, and how many in all.
    pub room: usize,
    pub most: usize,
    /// How often the list of a slot's probe was done without, since one was to be made.
    pub without: Vec<usize>,
    ghost slots_are_there: { vec_len slots ≡ 8192 },
    ghost counts_are_there: { vec_len without ≡ 8192 },
}
