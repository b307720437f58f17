// Where an item of a list probably stands: a table by a hash of the item, which has the last index for each hash.
// Whoever asks it tests what it says, so that no clause speaks of it.
use dl_terms::Base;
use std::alloc::{AllocError, Global};

/// How many slots a table has: two to the power of 13, and twice as many as there may be items.
const SLOTS: usize = 8192;

/// A table of guesses.
#[derive(Drop)]
pub(crate) struct Guesses {
    slots: Vec<u16>,
}

impl Guesses {
    /// The table of a list of names.
    pub(crate) fn of_names(alloc: Global, names: &[u32]) -> Result<Guesses, AllocError> {
        let mut slots = vec![in alloc; 0u16; SLOTS]?;
        for (i, name) in names.iter().enumerate() {
            put(&mut slots, slot_of_name(*name), i);
        }
        Ok(Guesses { slots })
    }

    /// The table of a list of role names.
    pub(crate) fn of_bases(alloc: Global, bases: &[Base]) -> Result<Guesses, AllocError> {
        let mut slots = vec![in alloc; 0u16; SLOTS]?;
        for (i, base) in bases.iter().enumerate() {
            put(&mut slots, slot_of_base(*base), i);
        }
        Ok(Guesses { slots })
    }

    /// Where a name stands, if it is there and no later one has its slot.
    pub(crate) fn of_name(&self, name: u32) -> usize {
        guess(&self.slots, slot_of_name(name))
    }

    /// Where a role name stands, if it is there and no later one has its slot.
    pub(crate) fn of_base(&self, base: Base) -> usize {
        guess(&self.slots, slot_of_base(base))
    }
}

/// Writes an index into a slot, if it is one.
fn put(slots: &mut [u16], slot: usize, index: usize) {
    if let Some(kept) = slots.get_mut(slot) {
        *kept = (index & 0xFFFF) as u16;
    }
}

/// What a slot has, or 0.
fn guess(slots: &[u16], slot: usize) -> usize {
    match slots.get(slot) {
        Some(kept) => usize::from(*kept),
        None => 0,
    }
}

/// The slot of a number: the high bits of its product with the golden ratio of 2 to the power of 32, which spreads
/// numbers that follow each other (Knuth, The Art of Computer Programming, volume 3, section 6.4).
fn slot_of_name(name: u32) -> usize {
    (name.wrapping_mul(0x9E37_79B1) >> 19) as usize
}

/// The slot of a role name: of an auxiliary role by all its parts.
fn slot_of_base(base: Base) -> usize {
    match base {
        Base::Named(name) => slot_of_name(name),
        Base::Auxiliary {
            role,
            inverse,
            class,
        } => {
            let turned = if inverse { !class } else { class };
            slot_of_name(role.wrapping_mul(0x85EB_CA6B) ^ turned)
        }
    }
}
