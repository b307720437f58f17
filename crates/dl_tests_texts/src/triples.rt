use dl_names::NameSet;
use dl_terms::Fact;
use dl_triples::{TripleFault, read_triples};
use std::alloc::Global;

/// A text, its facts, how many triples are skipped, and the names in the order of their places.
type Value = (&'static [u8], &'static [Fact], u64, &'static [&'static str]);

const A_B_C: &[&str] = &["a", "b", "c"];

const ONE_LINK: &[Fact] = &[Fact::Link {
    role: 1,
    from: 0,
    to: 2,
}];

/// Where lines end, and what may stand between and behind the parts.
const LAYOUT: &[Value] = &[
    (b"", &[], 0, &[]),
    (b"\n \t\r\n#\n # a comment\r", &[], 0, &[]),
    (b"<a> <b> <c> .", ONE_LINK, 0, A_B_C),
    (b"<a><b><c>.", ONE_LINK, 0, A_B_C),
    (
        b" \t<a>\t<b>  <c>\t.\t# <d> <e> <f> .\n",
        ONE_LINK,
        0,
        A_B_C,
    ),
    (b"<a> <b> <c> .#\xC3\xA9", ONE_LINK, 0, A_B_C),
    // CR alone ends a line, CR LF ends one, and each of two ends of one kind ends one.
    (
        b"<a> <b> <c> .\r<c> <b> <a> .\r\n\r\r\n<a> <b> <c> .\n\n",
        &[
            Fact::Link {
                role: 1,
                from: 0,
                to: 2,
            },
            Fact::Link {
                role: 1,
                from: 2,
                to: 0,
            },
            Fact::Link {
                role: 1,
                from: 0,
                to: 2,
            },
        ],
        0,
        A_B_C,
    ),
    // An IRI may be empty.
    (
        b"<> <> <> .",
        &[Fact::Link {
            role: 0,
            from: 0,
            to: 0,
        }],
        0,
        &[""],
    ),
];

/// Escapes: what they spell is the name.
const ESCAPES: &[Value] = &[
    (
        b"<\\u0061> <b> <a> .",
        &[Fact::Link {
            role: 1,
            from: 0,
            to: 0,
        }],
        0,
        &["a", "b"],
    ),
    (
        b"<caf\\u00E9> <caf\\u00e9> <caf\xC3\xA9> .",
        &[Fact::Link {
            role: 0,
            from: 0,
            to: 0,
        }],
        0,
        &["caf\u{e9}"],
    ),
    (
        b"<x\\U0001F600y> <\\uFFFD> <\\u0021\\u007A> .",
        ONE_LINK,
        0,
        &["x\u{1F600}y", "\u{FFFD}", "!z"],
    ),
    (
        b"<a> <http://www.w3.org/1999/02/22-rdf-syntax-ns#\\u0074ype> <c> .",
        &[Fact::Is { class: 1, who: 0 }],
        0,
        &["a", "c"],
    ),
];

/// Literals: they are skipped and counted, and give no name.
const LITERALS: &[Value] = &[
    (b"<a> <b> \"\" .", &[], 1, &[]),
    (b"<a><b>\"_:c\". # _:d", &[], 1, &[]),
    (
        b"<a> <b> \"_:c\"@e-1 .\n<a> <b> \"\"@en-GB-x9.",
        &[],
        2,
        &[],
    ),
    (
        b"<a> <b> \"\\t\\b\\n\\r\\f\\\"\\'\\\\\\u0020\\U0010FFFF\" .",
        &[],
        1,
        &[],
    ),
    (
        b"<a> <b> \"1\"^^<> .\n<a> <b> \"\"^^<\\u0061>.",
        &[],
        2,
        &[],
    ),
    // A literal may hold any character but a quote, a backslash and line ends.
    (
        b"<a> <b> \"\x00\x7F # <>{}\xF0\x9F\x98\x80\" .",
        &[],
        1,
        &[],
    ),
    (
        b"<a> <http://www.w3.org/1999/02/22-rdf-syntax-ns#type> \"c\" .",
        &[],
        1,
        &[],
    ),
];

/// What a triple says by its IRIs.
const MEANINGS: &[Value] = &[
    (
        b"<a> <http://www.w3.org/1999/02/22-rdf-syntax-ns#type> <c> .\n<c> <b> <a> .",
        &[
            Fact::Is { class: 1, who: 0 },
            Fact::Link {
                role: 2,
                from: 1,
                to: 0,
            },
        ],
        0,
        &["a", "c", "b"],
    ),
    (
        b"<a> <http://www.w3.org/1999/02/22-rdf-syntax-ns#type> <http://www.w3.org/2002/07/owl#Nothing> .",
        &[Fact::Is { class: 1, who: 0 }],
        0,
        &["a", "http://www.w3.org/2002/07/owl#Nothing"],
    ),
    // These have no effect, whatever the subject is.
    (
        b"<a> <http://www.w3.org/1999/02/22-rdf-syntax-ns#type> <http://www.w3.org/2002/07/owl#NamedIndividual> .\n\
          <http://www.w3.org/2002/07/owl#x> <http://www.w3.org/1999/02/22-rdf-syntax-ns#type> <http://www.w3.org/2002/07/owl#Thing> .",
        &[],
        0,
        &[],
    ),
    // The nine annotation properties, one with a reserved object.
    (
        b"<a> <http://www.w3.org/2000/01/rdf-schema#label> <b> .\n\
          <a> <http://www.w3.org/2000/01/rdf-schema#comment> <http://www.w3.org/2002/07/owl#Thing> .\n\
          <a> <http://www.w3.org/2000/01/rdf-schema#seeAlso> <b> .\n\
          <a> <http://www.w3.org/2000/01/rdf-schema#isDefinedBy> <b> .\n\
          <a> <http://www.w3.org/2002/07/owl#versionInfo> <b> .\n\
          <a> <http://www.w3.org/2002/07/owl#deprecated> <b> .\n\
          <a> <http://www.w3.org/2002/07/owl#priorVersion> <b> .\n\
          <a> <http://www.w3.org/2002/07/owl#backwardCompatibleWith> <b> .\n\
          <a> <http://www.w3.org/2002/07/owl#incompatibleWith> <b> .\n",
        &[],
        9,
        &[],
    ),
    // A text that only begins like a reserved namespace is a name.
    (
        b"<http://www.w3.org/2002/07/owl> <HTTP://www.w3.org/2002/07/owl#> <c> .",
        ONE_LINK,
        0,
        &[
            "http://www.w3.org/2002/07/owl",
            "HTTP://www.w3.org/2002/07/owl#",
            "c",
        ],
    ),
];

/// Whether the names are these, each at its place, and there are no more.
pub(crate) fn has_names(set: &mut NameSet, names: &[&str]) -> bool {
    let mut place = 0u32;
    for name in names {
        if set.add(name) != Ok(place) {
            return false;
        }
        place = place.wrapping_add(1);
    }
    set.add("no name of a test") == Ok(place)
}

/// Whether each text has its value.
fn have_values(alloc: Global, rows: &[Value]) -> bool {
    for (text, facts, skipped, names) in rows {
        let mut set = NameSet::new(alloc);
        let Ok(triples) = read_triples(alloc, text, &mut set) else {
            return false;
        };
        if triples.facts.as_slice() != *facts
            || triples.skipped != *skipped
            || !has_names(&mut set, names)
        {
            return false;
        }
    }
    true
}

/// A small file of four lines with one fact, which the last one has.
const FILE: &[u8] = b"# exported\n\
<http://e.org/u#ann> <http://www.w3.org/1999/02/22-rdf-syntax-ns#type> <http://www.w3.org/2002/07/owl#NamedIndividual> .\n\
<http://e.org/u#ann> <http://www.w3.org/2000/01/rdf-schema#label> \"Ann\"@en .\n\
<http://e.org/u#bob> <http://e.org/u#teaches> <http://e.org/u#logic> .\n";

/// The number of the last line.
fn last_line(text: &[u8]) -> u64 {
    let mut n = 1u64;
    for byte in text {
        if *byte == b'\n' {
            n = n.saturating_add(1);
        }
    }
    n
}

/// Whether a prefix of the file has the value that its whole lines have: the last line is empty, a comment or ends
/// with its dot. Else it is no triple.
fn is_read(alloc: Global, prefix: &[u8]) -> bool {
    let is_whole = prefix.len() <= 11 || prefix.ends_with(b"\n") || prefix.ends_with(b" .");
    let mut set = NameSet::new(alloc);
    match read_triples(alloc, prefix, &mut set) {
        Ok(triples) => {
            let count = usize::from(prefix.len() + 1 >= FILE.len());
            is_whole && triples.facts.as_slice() == &ONE_LINK[..count]
        }
        Err(fault) => {
            let n = last_line(prefix);
            !is_whole && fault == TripleFault::Line { n }
        }
    }
}

fn are_read(alloc: Global, file: &[u8]) -> bool {
    for end in 0..file.len() + 1 {
        if !is_read(alloc, &file[..end]) {
            return false;
        }
    }
    true
}

/// The facts of a small file over the numbers of its names, which are ranks.
fn is_ranked(alloc: Global) -> bool {
    let mut set = NameSet::new(alloc);
    let Ok(mut triples) = read_triples(alloc, b"<c> <b> <a> .", &mut set) else {
        return false;
    };
    let Ok((_, ranks)) = set.freeze() else {
        return false;
    };
    triples.ranked(&ranks);
    triples.facts.as_slice()
        == [Fact::Link {
            role: 1,
            from: 2,
            to: 0,
        }]
        .as_slice()
}

#[test]
fn texts_have_their_values(rt: HostRuntime) {
    assert!(rt; have_values(rt.alloc(), LAYOUT));
    assert!(rt; have_values(rt.alloc(), ESCAPES));
    assert!(rt; have_values(rt.alloc(), LITERALS));
    assert!(rt; have_values(rt.alloc(), MEANINGS));
}

#[test]
fn no_prefix_reads_as_another_fact(rt: HostRuntime) {
    assert!(rt; are_read(rt.alloc(), FILE));
}

#[test]
fn facts_of_triples_get_their_numbers(rt: HostRuntime) {
    assert!(rt; is_ranked(rt.alloc()));
}
