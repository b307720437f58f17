// Guesses at the places of texts. A guess is compared with the text before it is believed, so nothing has to hold of
// guesses, and where memory is refused for them there are fewer.

ghost use Rattle.std.specs.Prelude.{◌≡◌, ◌∷◌, ◌++◌, [], OnOk};

use dl_terms::NoMemory;
use std::alloc::Global;

/// How many guesses there are at first, a power of two as all later counts are.
const FEW: usize = 1024;

/// For each slot the place of the last text that was noted there.
#[derive(Drop)]
pub(crate) struct Guesses {
    places: Vec<u32>,
}

/// A place that may be a text's, and what stands there.
#[derive(Clone, Copy)]
pub(crate) struct Known<'a> {
    pub(crate) place: u32,
    pub(crate) text: &'a str,
}

impl Guesses {
    /// No guesses. It takes no memory.
    pub(crate) fn new(alloc: Global) -> Guesses {
        Guesses {
            places: Vec::new(alloc),
        }
    }

    /// The slot of a hash.
    fn slot(&self, hash: u32) -> usize {
        hash as usize & self.places.len().wrapping_sub(1)
    }

    /// The guesses at the places of texts with these hashes.
    pub(crate) fn of(&self, hashes: &[u32]) -> Result<Vec<u32>, NoMemory> {
        let mut guesses = Vec::with_capacity(*self.places.allocator(), hashes.len())?;
        for hash in hashes.iter() {
            let guess = self.places.get(self.slot(*hash)).copied().unwrap_or(0);
            push(&mut guesses, guess)?;
        }
        Ok(guesses)
    }

    /// Notes the place of a text with this hash.
    pub(crate) fn note(&mut self, hash: u32, place: u32) {
        let slot = self.slot(hash);
        if let Some(guess) = self.places.get_mut(slot) {
            *guess = place;
        }
    }

    /// Notes each place below `count`, by the hash of its text.
    pub(crate) fn note_all(&mut self, hashes: &[u32], places: &[u32], count: u32) {
        for (hash, place) in hashes.iter().zip(places.iter()) {
            if *place < count {
                self.note(*hash, *place);
            }
        }
    }

    /// Makes room for the guess at one more place. The guesses so far are forgotten where there is too little.
    pub(crate) fn make_room(&mut self, place: u32) {
        let slots = self.places.len();
        if place as usize >= slots / 2 {
            let more = slots.saturating_mul(2).max(FEW);
            if let Ok(places) = vec![in *self.places.allocator(); 0u32; more] {
                self.places = places;
            }
        }
    }
}

/// Adds a number at the end.
pub(crate) fn push(numbers: &mut Vec<u32>, number: u32) -> Result<(), NoMemory>
    ensures { OnOk result (numbers.new.items ≡ numbers.old.items ++ number ∷ []) }
{
    numbers.push(number)?;
    Ok(())
}

/// The hashes of texts.
pub(crate) fn hashes_of(alloc: Global, texts: &[&str]) -> Result<Vec<u32>, NoMemory> {
    let mut hashes = Vec::with_capacity(alloc, texts.len())?;
    for text in texts.iter() {
        push(&mut hashes, hash_of(text.as_bytes()))?;
    }
    Ok(hashes)
}

/// A number that tells most texts apart, and takes little time.
pub(crate) fn hash_of(text: &[u8]) -> u32 {
    let mut hash = text.len() as u64;
    let mut rest = text;
    while let Some((piece, behind)) = rest.split_first_chunk::<8>() {
        hash = mixed(hash, u64::from_le_bytes(*piece));
        rest = behind;
    }
    (mixed(hash, last_of(text)) >> 32) as u32
}

/// The number with a piece of a text mixed in.
fn mixed(hash: u64, piece: u64) -> u64 {
    let product = (hash ^ piece).wrapping_mul(0x9E37_79B9_7F4A_7C15);
    product ^ (product >> 32)
}

/// The last eight bytes of a text as a number, or all of a shorter one.
fn last_of(text: &[u8]) -> u64 {
    match text.last_chunk::<8>() {
        Some(piece) => u64::from_le_bytes(*piece),
        None => short(text),
    }
}

/// The bytes of a short text as a number.
fn short(text: &[u8]) -> u64 {
    let mut number = 0u64;
    for byte in text.iter() {
        number = number.wrapping_mul(256) ^ u64::from(*byte);
    }
    number
}
