// Parts of sets of variables, as bits.
ghost use Rattle.std.specs.Prelude.{◌≡◌, ℕ, ◌<◌, ◌≤◌, ◌^◌, ◌↔◌, Bool, true, List, length, bit_and, IsTrue, MatchOption};
ghost use Rattle.std.specs.List.{list_any};
ghost use Rattle.dl_terms.specs.declared.query.Term.TheVariants.{Var};
ghost use Rattle.dl_terms.specs.declared.query.Query.{Query};
ghost use Rattle.dl_tree.specs.Sets.{IsConnected};
ghost use Rattle.dl_tree.specs.Below.{IsClosedIn};
ghost use Rattle.dl_tree.specs.Tests.{crosses};
ghost use Rattle.dl_tree.specs.TestsOf.{IsNumbering};
ghost use Rattle.dl_tree.specs.Masks.{set_of, bit_of, AreLinkMasks, TouchesBoth, IsClosedMask, IsReached};

/// Whether a term outside the set shares a role atom with a member.
pub(crate) fn has_neighbour(links: &[(u8, u8)], s: u8) -> bool
    ensures { result ≡ list_any (crosses s) links.now }
{
    links.iter().any(|link| crosses(*link, s))
}

fn crosses(link: (u8, u8), s: u8) -> bool
    ensures { result ≡ crosses s link }
{
    (link.0 & s != 0 && link.1 & s == 0) || (link.1 & s != 0 && link.0 & s == 0)
}

/// Whether a set is connected.
pub(crate) fn is_connected(links: &[(u8, u8)], s: u8) -> bool
    ensures { (q : Query) (ex : List ℕ) → AreLinkMasks q ex links.now → IsNumbering ex → length ex ≤ 8
        → s < 2 ^ length ex → (result ≡ true) ↔ IsConnected q (set_of ex s) }
{
    if s == 0 {
        return false;
    }
    part_of(links, s) == s
}

/// A connected part of a set that isn't empty, which no role atom links to the rest of it. Both are numbers, and the
/// role atoms come as the bits of their terms.
pub fn part_of(links: &[(u8, u8)], s: u8) -> u8
    ensures { (q : Query) (ex : List ℕ) → AreLinkMasks q ex links.now → IsNumbering ex → length ex ≤ 8
        → 1 ≤ s → s < 2 ^ length ex → IsConnected q (set_of ex result)
        × IsClosedIn q (set_of ex result) (set_of ex s) × (result < 2 ^ length ex) }
{
    match some_bit(s) {
        Some(bit) => component(links, s, bit),
        None => 0,
    }
}

/// The least bit of a number, or none of 0.
fn some_bit(s: u8) -> Option<u8>
    ensures { MatchOption result ((i : ℕ) → i < 8 → bit_and (2 ^ i) s ≡ 0)
        (λ bit. (i : ℕ) × (bit ≡ 2 ^ i) × (bit_and bit s ≡ 0 → ⊥)) }
{
    let mut bit = 1u32;
    for _ in 0..8u32 {
        let one = bit as u8;
        if one & s != 0 {
            return Some(one);
        }
        bit *= 2;
    }
    None
}

/// The part of a set that role atoms within the set link to one of its members.
fn component(links: &[(u8, u8)], rest: u8, seed: u8) -> u8
    ensures { (q : Query) (ex : List ℕ) (v : ℕ) → AreLinkMasks q ex links.now → rest < 2 ^ length ex
        → bit_of ex (Var v) ≡ seed → set_of ex rest v ≡ true
        → IsConnected q (set_of ex result) × IsClosedIn q (set_of ex result) (set_of ex rest)
        × (result < 2 ^ length ex) }
{
    let mut part = seed;
    let mut grown = grow(links, rest, part);
    while grown != part {
        part = grown;
        grown = grow(links, rest, part);
    }
    part
}

/// One pass over the role atoms: what they link to the part is put to it.
fn grow(links: &[(u8, u8)], rest: u8, part: u8) -> u8
    ensures reached { (q : Query) (ex : List ℕ) (v : ℕ) → AreLinkMasks q ex links.now
        → rest < 2 ^ length ex → IsReached q ex rest v part → IsReached q ex rest v result }
    ensures more { part ≤ result }
    ensures closed { result ≡ part → IsClosedMask links.now rest part }
{
    let mut grown = part;
    for link in links {
        if touches_both(*link, rest, grown) {
            grown |= link.0 | link.1;
        }
    }
    grown
}

/// Whether both terms of a role atom are in the one set, and one of them is in the other.
fn touches_both(link: (u8, u8), rest: u8, part: u8) -> bool
    ensures { IsTrue result ↔ TouchesBoth link rest part }
{
    link.0 & rest != 0 && link.1 & rest != 0 && (link.0 & part != 0 || link.1 & part != 0)
}
