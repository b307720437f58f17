ghost use Rattle.std.specs.Prelude.{◌≡◌, ◌<◌, ◌≤◌, ◌↔◌, [], All, length, map, slice_get, true, false, IsTrue, IsOk, IfOk, OnOk, OnErr};
ghost use Rattle.std.specs.Option.{ForSome};
ghost use Rattle.dl_names.specs.NameList.{max_names, names_after, has_name, place_of, HasNoRepeats};
ghost use Rattle.dl_names.specs.Frozen.{IsFrozen};
ghost use Rattle.dl_names.specs.Hints.{IsKnown};

use crate::arrange::{placed, ranks_of, texts_of};
use crate::hints::{Guesses, Known, hash_of, hashes_of, push};
use crate::{NameFault, Names, Ranks};
use dl_terms::NoMemory;
use indexmap::IndexSet;
use std::alloc::Global;
use std::marker::Model;

/// The most names that a run may have.
pub const MAX_NAMES: u32 = 4_000_000;

/// The names met so far. Contracts see the list of their texts, in the order of first occurrence.
#[derive(Drop)]
pub struct NameSet {
    texts: IndexSet<String>,
    guesses: Guesses,
}

impl Model for NameSet {
    ghost use Rattle.std.specs.Prelude.{List, ℕ, map, length, ◌≤◌, string_bytes};
    ghost use Rattle.dl_names.specs.NameList.{max_names, HasNoRepeats};

    ghost Value = { List (List ℕ) };

    ghost view = { λ s. map string_bytes s.texts.keys };

    ghost invariant = { λ s.
        HasNoRepeats (map string_bytes s.texts.keys) × (length s.texts.keys ≤ max_names) };
}

impl NameSet {
    /// A set with no names. It takes no memory; `add` takes its memory from `alloc`.
    pub fn new(alloc: Global) -> NameSet
        ensures { result ≡ [] }
    {
        NameSet {
            texts: IndexSet::new(alloc),
            guesses: Guesses::new(alloc),
        }
    }

    /// The place of the text: how many names were met before it. A text that isn't among the names becomes the last
    /// one. `Full` exactly where `MAX_NAMES` names are there and the text is none of them. `NoMemory` comes only
    /// for a new text. After an error the names are as before.
    pub fn add(&mut self, text: &str) -> Result<u32, NameFault>
        ensures named { OnOk result (self.new ≡ names_after self.old text.now) }
        ensures place { IfOk result (λ place.
            place ≡ place_of (names_after self.old text.now) text.now) }
        ensures within { IfOk result (λ place. place < length self.new) }

        ensures known { has_name self.old text.now ≡ true → IsOk result }
        ensures full { (result ≡ Err NameFault.Full) ↔
            ((length self.old ≡ max_names) × (has_name self.old text.now ≡ false)) }
        ensures err { OnErr result (self.new ≡ self.old) }

        ensures distinct { HasNoRepeats self.new }
        ensures fits { length self.new ≤ max_names }
    {
        if let Some(place) = self.texts.get_index_of(text) {
            self.guesses.note(hash_of(text.as_bytes()), place as u32);
            return Ok(place as u32);
        }
        let count = self.texts.len();
        if count == MAX_NAMES as usize {
            return Err(NameFault::Full);
        }
        let owned = String::from_str(*self.texts.allocator(), text)?;
        self.texts.insert(owned)?;
        self.guesses.make_room(count as u32);
        self.guesses.note(hash_of(text.as_bytes()), count as u32);
        Ok(count as u32)
    }

    /// The same as `add`, whatever the place: it takes less time where the name at that place is the text.
    pub fn add_at(&mut self, text: &str, place: u32) -> Result<u32, NameFault>
        ensures named { OnOk result (self.new ≡ names_after self.old text.now) }
        ensures place { IfOk result (λ place.
            place ≡ place_of (names_after self.old text.now) text.now) }
        ensures within { IfOk result (λ place. place < length self.new) }

        ensures known { has_name self.old text.now ≡ true → IsOk result }
        ensures full { (result ≡ Err NameFault.Full) ↔
            ((length self.old ≡ max_names) × (has_name self.old text.now ≡ false)) }
        ensures err { OnErr result (self.new ≡ self.old) }

        ensures distinct { HasNoRepeats self.new }
        ensures fits { length self.new ≤ max_names }
    {
        if self.is_at(text, place) {
            return Ok(place);
        }
        self.add(text)
    }

    /// Whether the name at the place is the text.
    fn is_at(&self, text: &str, place: u32) -> bool
        ensures at { IsTrue result → slice_get self.now place ≡ Some text.now }
        ensures distinct { HasNoRepeats self.now }
        ensures fits { length self.now ≤ max_names }
    {
        match self.texts.get_index(place as usize) {
            Some(name) => name.as_str() == text,
            None => false,
        }
    }

    /// The place of each text, or how many names there are where it is none of them. It takes less time than one
    /// look-up after the other, since the processor waits for the memory of many of them at once. After `NoMemory`
    /// the list of places is any.
    pub fn places(&mut self, texts: &[&str], places: &mut Vec<u32>) -> Result<(), NoMemory>
        ensures ok { OnOk result (places.new.items ≡ map (λ text. place_of self.old text.now) texts.now) }
        ensures names { self.new ≡ self.old }
    {
        let hashes = hashes_of(*self.texts.allocator(), texts)?;
        let guesses = self.guesses.of(&hashes)?;
        self.places_by(texts, &guesses, places)?;
        let count = self.texts.len() as u32;
        self.guesses.note_all(&hashes, places.as_slice(), count);
        Ok(())
    }

    /// The place of each text. The guesses are tried first.
    fn places_by(
        &self,
        texts: &[&str],
        guesses: &[u32],
        places: &mut Vec<u32>,
    ) -> Result<(), NoMemory>
        ensures { OnOk result (places.new.items ≡ map (λ text. place_of self.now text.now) texts.now) }
    {
        let known = self.known_at(guesses)?;
        places.clear();
        for (index, text) in texts.iter().enumerate() {
            push(places, self.place_by(text, known.get(index)))?;
        }
        Ok(())
    }

    /// What stands at places, which may be any numbers.
    fn known_at(&self, places: &[u32]) -> Result<Vec<Known<'_>>, NoMemory>
        ensures { IfOk result (λ known. All (IsKnown self.now) known.items) }
    {
        let mut known = Vec::with_capacity(*self.texts.allocator(), places.len())?;
        for place in places.iter() {
            let text = self.text_at(*place);
            known.push(Known {
                place: *place,
                text,
            })?;
        }
        Ok(known)
    }

    /// The text at the place, or the empty one behind the last.
    fn text_at(&self, place: u32) -> &str
        ensures { place < length self.now → slice_get self.now place ≡ Some result.now }
    {
        match self.texts.get_index(place as usize) {
            Some(name) => name.as_str(),
            None => "",
        }
    }

    /// The place of the text. What is known is tried first.
    fn place_by(&self, text: &str, known: Option<&Known>) -> u32
        requires { ForSome known (λ known. IsKnown self.now known.now) }
        ensures { result ≡ place_of self.now text.now }
    {
        if let Some(known) = known {
            if (known.place as usize) < self.texts.len() && known.text == text {
                return known.place;
            }
        }
        match self.texts.get_index_of(text) {
            Some(place) => place as u32,
            None => self.texts.len() as u32,
        }
    }

    /// The names in byte order, and the rank of each place among them. Memory is all that may be wanting.
    pub fn freeze(self) -> Result<(Names, Ranks), NoMemory>
        ensures { IfOk result (λ frozen. IsFrozen self frozen.0 frozen.1) }
    {
        let mut entries = placed(&self.texts)?;
        entries.sort_unstable();
        let ranks = ranks_of(&entries)?;
        let texts = texts_of(&entries)?;
        Ok((Names::of(texts), Ranks::of_places(ranks)))
    }
}
