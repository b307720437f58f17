ghost use Rattle.std.specs.Prelude.{◌≡◌, ◌≤◌, length};

use dl_names::{
    NameFault, NameSet, Names, OWL_NOTHING, Ranks, is_free, is_iri_byte, is_reserved, may_be_class,
};
use dl_terms::Fact;
use std::alloc::Global;

/// Texts in the order in which they come, each with its place by first occurrence.
const PLACES: &[(&str, u32)] = &[
    ("b", 0),
    ("a", 1),
    ("", 2),
    ("ab", 3),
    ("a", 1),
    ("é", 4),
    ("Z", 5),
    ("b", 0),
    ("a-long-name-of-more-than-one-word", 6),
];

/// The same texts by their bytes.
const IN_ORDER: &[&str] = &[
    "",
    "Z",
    "a",
    "a-long-name-of-more-than-one-word",
    "ab",
    "b",
    "é",
];

/// Texts that are none of them.
const MISSING: &[&str] = &["A", "a-", "aba", "c", "ê"];

/// The rank of each place.
const RANKS: [u32; 7] = [5, 2, 0, 4, 6, 1, 3];

/// Whether each text gets its place.
fn are_added(set: &mut NameSet, rows: &[(&str, u32)]) -> bool {
    for row in rows {
        if set.add(row.0) != Ok(row.1) {
            return false;
        }
    }
    true
}

/// Whether the names are these texts, and each is found by its text.
fn are_in_order(names: &Names, texts: &[&str]) -> bool {
    if names.len() as usize != texts.len() {
        return false;
    }
    for n in 0..names.len() {
        let text = names.text(n);
        if text != texts[n as usize] || names.number(text) != Some(n) {
            return false;
        }
    }
    true
}

/// Whether none of the texts is a name.
fn lacks(names: &Names, texts: &[&str]) -> bool {
    for text in texts {
        if names.number(text).is_some() {
            return false;
        }
    }
    true
}

/// Whether the places have these ranks.
fn are_ranked(ranks: &Ranks, wanted: &[u32]) -> bool
    requires as_many { length ranks.now ≡ length wanted.now }
    requires few { length wanted.now ≤ 7 }
{
    for (place, rank) in wanted.iter().enumerate() {
        if ranks.of(place as u32) != *rank {
            return false;
        }
    }
    true
}

/// Whether the names are the seven, in order.
fn are_the_seven(names: &Names) -> bool {
    names.len() == 7 && !names.is_empty() && are_in_order(names, IN_ORDER) && lacks(names, MISSING)
}

/// Whether the names of a set are the seven, with their ranks.
fn freezes(set: NameSet) -> bool {
    let Ok((names, ranks)) = set.freeze() else {
        return false;
    };
    names.len() == 7 && are_ranked(&ranks, &RANKS) && are_the_seven(&names)
}

/// Texts that are looked up side by side, and their places: 7 where they are none of the seven.
const LOOKED_UP: (&[&str], &[u32]) = (
    &["a", "A", "é", "", "b", "a", "ab-", "Z"],
    &[1, 7, 4, 2, 0, 1, 7, 5],
);

/// Whether these are their places.
fn are_places(alloc: Global, set: &mut NameSet, texts: &[&str], places: &[u32]) -> bool {
    let mut found = Vec::new(alloc);
    set.places(texts, &mut found).is_ok() && found.as_slice() == places
}

/// Whether each text gets its place, if it is said to have this one.
fn are_added_at(set: &mut NameSet, rows: &[(&str, u32)], place: u32) -> bool {
    for row in rows {
        if set.add_at(row.0, place) != Ok(row.1) {
            return false;
        }
    }
    true
}

#[test]
fn places_by_first_occurrence_and_ranks_by_bytes(rt: HostRuntime) {
    let mut set = NameSet::new(rt.alloc());
    assert!(rt; are_added_at(&mut set, PLACES, 1));
    assert!(rt; are_places(rt.alloc(), &mut set, LOOKED_UP.0, LOOKED_UP.1));
    assert!(rt; are_added(&mut set, PLACES));
    assert!(rt; are_added_at(&mut set, PLACES, 7));
    assert!(rt; freezes(set));
}

/// Three texts whose order by bytes is another.
const FEW: &[(&str, u32)] = &[("b", 0), ("c", 1), ("a", 2)];

/// Whether facts over the three places become these facts over numbers.
fn are_ranked_facts(ranks: &Ranks) -> bool
    requires { length ranks.now ≡ 3 }
{
    let mut facts = [
        Fact::Is { class: 0, who: 1 },
        Fact::Link {
            role: 2,
            from: 0,
            to: 2,
        },
    ];
    ranks.rank_facts(&mut facts);
    facts[0] == Fact::Is { class: 1, who: 2 }
        && facts[1]
            == Fact::Link {
                role: 0,
                from: 1,
                to: 0,
            }
}

/// Whether facts over the places of a set get their numbers, if it has three.
fn ranks_facts(set: NameSet) -> bool {
    let Ok((names, ranks)) = set.freeze() else {
        return false;
    };
    names.len() == 3 && are_ranked_facts(&ranks)
}

#[test]
fn facts_get_their_numbers(rt: HostRuntime) {
    let mut set = NameSet::new(rt.alloc());
    assert!(rt; are_added(&mut set, FEW));
    assert!(rt; ranks_facts(set));
}

/// Texts of which some come twice.
const TWICE: &[(&str, u32)] = &[
    ("b", 0),
    ("a", 1),
    ("b", 0),
    ("a-long-name-of-more-than-one-word", 2),
    ("a", 1),
];

/// Whether each text gets its place, at a second try where a growth was refused.
fn are_added_again(set: &mut NameSet, rows: &[(&str, u32)]) -> bool {
    for row in rows {
        let added = match set.add(row.0) {
            Err(NameFault::NoMemory) => set.add(row.0),
            other => other,
        };
        if added != Ok(row.1) {
            return false;
        }
    }
    true
}

/// With a growth refused, as by `rt try --test --fail-alloc N`, the names are as before, so that a second try gives
/// the same place.
#[test]
fn a_second_try_after_a_refusal(rt: HostRuntime) {
    let mut set = NameSet::new(rt.alloc());
    assert!(rt; are_added_again(&mut set, TWICE));
}

/// IRIs, and whether they are reserved.
const IRIS: &[(&[u8], bool)] = &[
    (b"http://www.w3.org/2002/07/owl#Thing", true),
    (b"http://www.w3.org/2002/07/owl#", true),
    (b"http://www.w3.org/2002/07/owl", false),
    (b"http://www.w3.org/1999/02/22-rdf-syntax-ns#type", true),
    (b"http://www.w3.org/2000/01/rdf-schema#label", true),
    (b"http://www.w3.org/2001/XMLSchema#string", true),
    (b"http://www.w3.org/2004/02/skos/core#Concept", false),
    (b"", false),
];

/// Whether each row's IRI is told reserved or not.
fn are_told_reserved(rows: &[(&[u8], bool)]) -> bool {
    for row in rows {
        if is_reserved(row.0) != row.1 {
            return false;
        }
    }
    true
}

/// Whether each byte is told to be one that an IRI may have, or not.
fn are_told(bytes: &[u8], expected: bool) -> bool {
    for byte in bytes {
        if is_iri_byte(*byte) != expected {
            return false;
        }
    }
    true
}

#[test]
fn iris_and_names(rt: HostRuntime) {
    assert!(rt; are_told_reserved(IRIS));
    assert!(rt; are_told(b"\x00\t\n\r <>\"{}|^`\\", false));
    assert!(rt; are_told(b"!#%&'()*+,-./09:;=?@AZ[]_az~\x7F\xC3\xA9", true));
    assert!(rt; is_free("a:b") && may_be_class("a:b"));
    assert!(rt; !is_free(OWL_NOTHING) && may_be_class(OWL_NOTHING));
    assert!(rt; !may_be_class("http://www.w3.org/2002/07/owl#Thing"));
}
