// How a set of names is frozen: entries of its texts are sorted, and ranks and names are read off.
ghost use Rattle.std.specs.Prelude.{◌≡◌, ◌≢◌, ℕ, ◌<◌, ◌≤◌, map, slice_index, slice_index_or, string_bytes, vec_len, All, AllPairs, IfOk};
ghost use Rattle.indexmap.specs.IndexSet.{index_set_len};
ghost use Rattle.dl_names.specs.Arrange.{Entry, AreAlike, ArePlaced};
ghost use Rattle.dl_names.specs.NameList.{max_names};

use crate::fronts::{alike, front};
use dl_terms::NoMemory;
use indexmap::IndexSet;

/// Each text between the number of its front, by which most entries compare, and its place. The front is behind
/// what all texts begin with.
pub(crate) fn placed(texts: &IndexSet<String>) -> Result<Vec<(u64, &str, u32)>, NoMemory>
    requires { index_set_len texts.now ≤ max_names }
    ensures { IfOk result (λ entries.
        (skip : ℕ) × AreAlike skip texts.now.keys × ArePlaced skip texts.now.keys entries.items) }
{
    let skip = alike(texts.as_slice());
    let mut entries = Vec::with_capacity(*texts.allocator(), texts.len())?;
    for (place, text) in texts.as_slice().iter().enumerate() {
        let text = text.as_str();
        let entry = (front(text.as_bytes(), skip), text, place as u32);
        entries.push(entry)?;
    }
    Ok(entries)
}

/// For each place the rank of its text: the index of its entry.
pub(crate) fn ranks_of(entries: &Vec<(u64, &str, u32)>) -> Result<Vec<u32>, NoMemory>
    requires fits { vec_len entries.now ≤ max_names }
    requires within { All (λ entry. entry.2 < vec_len entries.now) entries.now.items }
    requires distinct { AllPairs (λ one two. one.2 ≢ two.2) entries.now.items }
    ensures len { IfOk result (λ ranks. vec_len ranks ≡ vec_len entries.now) }
    ensures ranked { IfOk result (λ ranks.
        (k : ℕ) (d : Entry) → k < vec_len entries.now →
        slice_index ranks.items (slice_index_or entries.now.items k d).2 ≡ k) }
{
    let mut ranks = vec![in *entries.allocator(); 0u32; entries.len()]?;
    for (rank, entry) in entries.iter().enumerate() {
        ranks[entry.2 as usize] = rank as u32;
    }
    Ok(ranks)
}

/// The texts, in strings of their own: those that follow each other are made, and lie in memory, one after the other.
pub(crate) fn texts_of(entries: &Vec<(u64, &str, u32)>) -> Result<Vec<String>, NoMemory>
    ensures { IfOk result (λ texts.
        map string_bytes texts.items ≡ map (λ entry. entry.1.now) entries.now.items) }
{
    let alloc = *entries.allocator();
    let mut texts = Vec::with_capacity(alloc, entries.len())?;
    for entry in entries.iter() {
        texts.push(String::from_str(alloc, entry.1)?)?;
    }
    Ok(texts)
}
