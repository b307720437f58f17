// Counts of faults by name in fixed room.
ghost use Rattle.std.specs.Prelude.{ℕ, ◌≡◌, List, replicate, slice_index};
ghost use Rattle.dl_io.specs.Count.{HasRisen, NoneFalls};
ghost use Rattle.dl_io.specs.Shared.{checksum, count_of, raised_for};

use std::marker::Model;

/// Counts of faults by name, up to the last number of 64 bits. Names with one checksum share a count.
#[derive(Drop)]
pub(crate) struct Counts {
    counts: [u64; 256],
}

impl Model for Counts {
    ghost Value = { List ℕ };

    ghost view = { λ counts. counts.counts };
}

impl Counts {
    /// No faults.
    pub(crate) fn new() -> Counts
        ensures { result ≡ replicate 256 0 }
    {
        Counts { counts: [0; 256] }
    }

    /// Counts a fault of this name.
    pub(crate) fn raise(&mut self, name: &str)
        ensures raised { self.new ≡ raised_for name.now self.old }
        ensures none_falls { NoneFalls (count_of self.old) (count_of self.new) }
        ensures risen { HasRisen (count_of self.old name.now) (count_of self.new name.now) }
    {
        let at = checksum(name) as usize;
        self.counts[at] = self.counts[at].saturating_add(1);
    }
}

/// The number of the count in which a name's faults are counted.
fn checksum(name: &str) -> u8
    ensures { result ≡ checksum name.now }
{
    let mut sum = 0u8;
    for byte in name.as_bytes() {
        sum = sum.wrapping_mul(31).wrapping_add(*byte);
    }
    sum
}
