ghost use Rattle.std.specs.Prelude.{◌≡◌, ◌<◌, ◌≤◌, ◌↔◌, ℕ, length, map, is_some, IsTrue, slice_get, slice_index, string_bytes};
ghost use Rattle.dl_names.specs.NameList.{max_names, has_name};
ghost use Rattle.dl_names.specs.Frozen.{IsAscending};

use std::marker::Model;

/// The names of a run in byte order, which is the order of `str`. The number of a name is its rank there, from 0 on.
/// Contracts see the list of their texts.
#[derive(Drop)]
pub struct Names {
    texts: Vec<String>,
}

impl Model for Names {
    ghost use Rattle.std.specs.Prelude.{List, ℕ, map, length, ◌≤◌, string_bytes};
    ghost use Rattle.dl_names.specs.Frozen.{IsAscending};
    ghost use Rattle.dl_names.specs.NameList.{max_names};

    ghost Value = { List (List ℕ) };

    ghost view = { λ n. map string_bytes n.texts.items };

    ghost invariant = { λ n.
        IsAscending (map string_bytes n.texts.items) × (length n.texts.items ≤ max_names) };
}

impl Names {
    /// The texts as names.
    pub(crate) fn of(texts: Vec<String>) -> Names
        requires ascending { IsAscending (map string_bytes texts.items) }
        requires fits { length texts.items ≤ max_names }
        ensures { result ≡ map string_bytes texts.items }
    {
        Names { texts }
    }

    /// How many names there are, at most `MAX_NAMES`. It takes no memory.
    pub fn len(&self) -> u32
        ensures len { result ≡ length self.now }
        ensures fits { result ≤ max_names }
        ensures ascending { IsAscending self.now }
    {
        self.texts.len() as u32
    }

    /// Whether there are no names.
    pub fn is_empty(&self) -> bool
        ensures { IsTrue result ↔ (length self.now ≡ 0) }
    {
        self.texts.is_empty()
    }

    /// The text of the name with number `n`, which is below `len`. It takes no memory.
    pub fn text(&self, n: u32) -> &str
        requires { n < length self.now }
        ensures { slice_get self.now n ≡ Some result.now }
    {
        self.texts[n as usize].as_str()
    }

    /// The number of the text, or `None` where it is no name. It takes no memory.
    pub fn number(&self, text: &str) -> Option<u32>
        ensures some { (n : ℕ) → (result ≡ Some n) ↔ (slice_get self.now n ≡ Some text.now) }
        ensures none { is_some result ≡ has_name self.now text.now }
    {
        match self.texts.binary_search_by(|name| name.as_str().cmp(text)) {
            Ok(n) => Some(n as u32),
            Err(_) => None,
        }
    }
}

/// The rank in byte order of each place of a frozen set. Contracts see the list of ranks, by place.
#[derive(Drop)]
pub struct Ranks {
    ranks: Vec<u32>,
}

impl Model for Ranks {
    ghost use Rattle.std.specs.Prelude.{List, ℕ};

    ghost Value = { List ℕ };

    ghost view = { λ r. r.ranks.items };
}

impl Ranks {
    /// The ranks, by place.
    pub(crate) fn of_places(ranks: Vec<u32>) -> Ranks
        ensures { result ≡ ranks.items }
    {
        Ranks { ranks }
    }

    /// The rank of the text that `NameSet::add` gave this place, which is its number among the names. The place is
    /// one that `add` gave. It takes no memory.
    pub fn of(&self, place: u32) -> u32
        requires { place < length self.now }
        ensures { result ≡ slice_index self.now place }
    {
        self.ranks[place as usize]
    }
}
