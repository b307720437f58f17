// Stream files: how they are refused, what they give, and how that is printed and read again; and the generated input.
ghost use Rattle.std.specs.Prelude.{◌≤◌};

use dl_names::{NameSet, Names};
use dl_stream::{
    Command, Kind, StreamFault, Streams, facts_are_read_back, generate, generated_input_is_fit,
    print_streams, queries_are_read_back, read_streams,
};
use dl_terms::{Atom, Fact, Term};
use std::alloc::{AllocError, Global};

/// A text, the number of its first faulty line, and what is wrong with that.
type Refused = (&'static str, u64, Kind);

const REFUSED: &[Refused] = &[
    // Commands stand in streams, edits in commits, and commits in streams.
    ("pin", 1, Kind::Form),
    ("# a comment\n\nask q() :- <A>(<a>)", 3, Kind::Form),
    ("stream\nend", 2, Kind::Form),
    ("stream\n+ SubClassOf(<A> <B>)", 2, Kind::Form),
    ("stream\ncommit\npin\nend", 3, Kind::Form),
    ("stream\ncommit\nstream", 3, Kind::Form),
    ("stream\ncommit\ncommit", 3, Kind::Form),
    // Words stand one space apart, and a carriage return alone ends no line.
    (" stream", 1, Kind::Form),
    ("stream ", 1, Kind::Form),
    ("Stream", 1, Kind::Form),
    ("stream\npin\r", 2, Kind::Form),
    ("stream\r\n\r\n# a comment\r\npin pin\r\n", 4, Kind::Form),
    ("stream\nmigrate 0", 2, Kind::Form),
    ("stream\nmigrate 0  1", 2, Kind::Form),
    ("stream\nsweep 0 1 2", 2, Kind::Form),
    ("stream\nsweep 0\t1", 2, Kind::Form),
    ("stream\nlook", 2, Kind::Form),
    ("stream\nask", 2, Kind::Form),
    ("stream\ncommit\n+<a> <P> <b> .", 3, Kind::Form),
    ("stream\n\u{FEFF}pin", 2, Kind::Form),
    // Numbers are 1 to 9 digits, and within their ranges.
    ("stream\nlook 0000000001", 2, Kind::Form),
    ("stream\nlook +1", 2, Kind::Form),
    ("stream\nlook 100001", 2, Kind::Form),
    ("stream\nmigrate 0 4194305", 2, Kind::Form),
    ("stream\nsweep 1000000000 1", 2, Kind::Form),
    ("stream\nask 0 q() :- <A>(<a>)", 2, Kind::Form),
    ("stream\nask 1000001 q() :- <A>(<a>)", 2, Kind::Form),
    ("stream\nask 5", 2, Kind::Form),
    ("stream\nask 5q() :- <A>(<a>)", 2, Kind::Form),
    // What the readers of the parts refuse.
    ("stream\ncommit\n+ <a> <P> <b>", 3, Kind::Triple),
    ("stream\ncommit\n+ _:b <P> <a> .", 3, Kind::Triple),
    (
        "stream\ncommit\n- <a> <http://www.w3.org/2002/07/owl#sameAs> <b> .",
        3,
        Kind::Triple,
    ),
    (
        "stream\ncommit\n+ <a> <P> <b> .\r<a> <P> <c> .",
        3,
        Kind::Triple,
    ),
    ("stream\ncommit\n+ ", 3, Kind::Axiom),
    ("stream\ncommit\n+  <a> <P> <b> .", 3, Kind::Axiom),
    ("stream\ncommit\n+ SubClassOf(<A>)", 3, Kind::Axiom),
    ("stream\ncommit\n- SubClassOf(:A <B>)", 3, Kind::Axiom),
    (
        "stream\ncommit\n+ SubClassOf(<A> <B>) SubClassOf(<B> <C>)",
        3,
        Kind::Axiom,
    ),
    ("stream\nask ", 2, Kind::Query),
    ("stream\nask q(?x) :- <A>(?y)", 2, Kind::Query),
    ("stream\nask 5  q(?x)\npin pin", 2, Kind::Query),
    // A commit that isn't ended is told where no line has a fault.
    (
        "stream\npin\ncommit\n+ SubClassOf(<A> <B>)\n",
        3,
        Kind::NotEnded,
    ),
    ("stream\ncommit\n# end", 2, Kind::NotEnded),
    ("stream\ncommit\nend\ncommit\n+ x", 5, Kind::Axiom),
];

/// Whether the text has this first fault.
fn is_refused(alloc: Global, row: &Refused) -> bool {
    let mut names = NameSet::new(alloc);
    match read_streams(alloc, row.0.as_bytes(), &mut names) {
        Ok(_) => false,
        Err(fault) => {
            fault
                == StreamFault::Line {
                    n: row.1,
                    kind: row.2,
                }
        }
    }
}

/// Whether each text has its fault.
fn are_refused(alloc: Global, rows: &[Refused]) -> bool {
    for row in rows {
        if !is_refused(alloc, row) {
            return false;
        }
    }
    true
}

#[test]
fn stream_files_are_refused(rt: HostRuntime) {
    assert!(rt; are_refused(rt.alloc(), REFUSED));
}

/// A first line, and behind it as many times another.
fn repeated(alloc: Global, first: &str, line: &str, times: u32) -> Result<String, AllocError> {
    let mut text = String::from_str(alloc, first)?;
    for _ in 0..times {
        text.push_str(line)?;
    }
    Ok(text)
}

/// Whether so many repeated lines are read, and one more is refused for this.
fn are_most(alloc: Global, lines: (&str, &str), most: u32, kind: Kind) -> Result<bool, AllocError>
    requires { most ≤ 1048576 }
{
    let mut names = NameSet::new(alloc);
    let text = repeated(alloc, lines.0, lines.1, most)?;
    if read_streams(alloc, text.as_bytes(), &mut names).is_err() {
        return Ok(false);
    }
    let text = repeated(alloc, lines.0, lines.1, most + 1)?;
    let fault = StreamFault::Line {
        n: 2 + u64::from(most),
        kind,
    };
    Ok(match read_streams(alloc, text.as_bytes(), &mut names) {
        Ok(_) => false,
        Err(told) => told == fault,
    })
}

#[test]
fn one_stream_or_command_too_many(rt: HostRuntime) {
    let streams = are_most(rt.alloc(), ("#\n", "stream\n"), 64, Kind::TooManyStreams);
    assert!(rt; matches!(streams, Ok(true)));
    let commands = are_most(
        rt.alloc(),
        ("stream\n", "pin\n"),
        1_048_576,
        Kind::TooManyCommands,
    );
    assert!(rt; matches!(commands, Ok(true)));
}

/// Stream files whose names first occur in the order of their bytes, and how what they give is printed.
const PRINTED: &[(&str, &str)] = &[
    ("", ""),
    ("#\n\nstream", "stream\n"),
    (
        "stream\npin\ncommit\n- SubClassOf(<A> <B>)\nend\nask q(?x) :- <B>(?x)\nunpin\npin\nask q(?x) :- <B>(?x)",
        "stream\npin\ncommit\n- SubClassOf(<A> <B>)\nend\nask 10000 q(?v0) :- <B>(?v0)\nunpin\npin\n\
         ask 10000 q(?v0) :- <B>(?v0)\n",
    ),
    // Lines may end by CR LF, and numbers begin with zeros.
    (
        "stream\r\nlook 007\r\nstream\nreclaim\r\n",
        "stream\nlook 7\nstream\nreclaim\n",
    ),
    // What is skipped or has no effect, and a removed declaration, makes no edit.
    (
        "stream\ncommit\n+ <a> <b> \"x\" .\n- Declaration(Class(<A>))\n+ Declaration(Class(<A>))\n\
         + Declaration(ObjectProperty(<P>))\n+ Declaration(NamedIndividual(<a>))\n# end\nend",
        "stream\ncommit\n+ Declaration(Class(<A>))\n+ Declaration(ObjectProperty(<P>))\nend\n",
    ),
    // Facts of either form, and a query over them.
    (
        "stream\ncommit\n+ <a><\\u0062><c>. # one\n- ClassAssertion(<c> <a>)\nend\nmigrate 3 4194304\n\
         sweep 999999999 0\nask 5 q() :- <b>(<a>,<c>) , <c>(?y)",
        "stream\ncommit\n+ <a> <b> <c> .\n- <a> <http://www.w3.org/1999/02/22-rdf-syntax-ns#type> <c> .\nend\n\
         migrate 3 4194304\nsweep 999999999 0\nask 5 q() :- <b>(<a>, <c>), <c>(?v0)\n",
    ),
];

/// How what a text gives is printed, where its names are in order.
fn printed(alloc: Global, text: &[u8]) -> Option<Vec<u8>> {
    let mut set = NameSet::new(alloc);
    let Ok(streams) = read_streams(alloc, text, &mut set) else {
        return None;
    };
    let Ok((names, _ranks)) = set.freeze() else {
        return None;
    };
    match print_streams(alloc, &streams, &names) {
        Ok(bytes) => Some(bytes),
        Err(_) => None,
    }
}

/// Whether a text is printed as it should be, and that is printed the same.
fn is_printed(alloc: Global, text: &str, plain: &str) -> bool {
    let Some(first) = printed(alloc, text.as_bytes()) else {
        return false;
    };
    match printed(alloc, first.as_slice()) {
        Some(again) => first.as_slice() == plain.as_bytes() && again.as_slice() == plain.as_bytes(),
        None => false,
    }
}

/// Whether each text is.
fn are_printed(alloc: Global, rows: &[(&str, &str)]) -> bool {
    for (text, plain) in rows {
        if !is_printed(alloc, text, plain) {
            return false;
        }
    }
    true
}

#[test]
fn streams_are_printed_and_read_again(rt: HostRuntime) {
    assert!(rt; are_printed(rt.alloc(), PRINTED));
}

/// What is in the classes 1 and 0.
const IN_BOTH: [Atom; 2] = [
    Atom::Is {
        class: 1,
        at: Term::Var(0),
    },
    Atom::Is {
        class: 0,
        at: Term::Var(0),
    },
];

/// Whether the first command asks for that, with the limit 7.
fn asks_for_both(streams: &Streams) -> bool {
    let Some(commands) = streams.lists.get(0) else {
        return false;
    };
    match commands.get(0) {
        Some(Command::Ask { query, limit }) => {
            *limit == 7 && query.atoms.as_slice() == IN_BOTH.as_slice()
        }
        _ => false,
    }
}

/// Whether places become numbers.
fn are_ranked(alloc: Global) -> bool {
    let mut set = NameSet::new(alloc);
    let Ok(streams) = read_streams(alloc, b"stream\nask 7 q(?x) :- <B>(?x), <A>(?x)", &mut set)
    else {
        return false;
    };
    let Ok((_names, ranks)) = set.freeze() else {
        return false;
    };
    let mut streams = streams;
    streams.ranked(&ranks);
    asks_for_both(&streams)
}

#[test]
fn streams_get_the_numbers_of_names(rt: HostRuntime) {
    assert!(rt; are_ranked(rt.alloc()));
}

/// The streams that are generated for one individual.
const GENERATED: &str = "\
stream
pin
ask 1000000 q(?v0) :- <c00>(?v0), <p0>(?v0, ?v1)
commit
- SubClassOf(<c01> <c00>)
+ SubClassOf(<c31> <c00>)
end
migrate 0 1
migrate 1 1
migrate 2 1
migrate 3 1
ask 1000000 q(?v0) :- <c00>(?v0), <p0>(?v0, ?v1)
unpin
pin
ask 1000000 q(?v0) :- <c00>(?v0), <p0>(?v0, ?v1)
unpin
sweep 0 1
sweep 1 1
sweep 2 1
sweep 3 1
reclaim
";

/// The individual is joined to itself by the first role.
const ONE_LINK: [Fact; 1] = [Fact::Link {
    role: 33,
    from: 32,
    to: 32,
}];

/// Whether names are those that are generated for one individual.
fn are_names(names: &Names) -> bool {
    names.len() == 41
        && names.text(0) == "c00"
        && names.text(31) == "c31"
        && names.text(32) == "n000000"
        && names.text(33) == "p0"
        && names.text(40) == "p7"
}

/// Whether the smallest input from the number 0 has that one fact.
fn is_smallest(alloc: Global) -> bool {
    let Ok(input) = generate(alloc, 0, 1) else {
        return false;
    };
    input.facts.as_slice() == ONE_LINK.as_slice()
        && input.axioms.len() == 47
        && are_names(&input.names)
}

/// Whether its streams have their text.
fn has_its_text(alloc: Global) -> bool {
    generated_input_is_fit();
    let Ok(input) = generate(alloc, 0, 1) else {
        return false;
    };
    match print_streams(alloc, &input.streams, &input.names) {
        Ok(bytes) => bytes.as_slice() == GENERATED.as_bytes(),
        Err(_) => false,
    }
}

#[test]
fn the_smallest_input_is_generated(rt: HostRuntime) {
    assert!(rt; is_smallest(rt.alloc()));
    assert!(rt; has_its_text(rt.alloc()));
}

#[test]
fn laws_of_the_text_of_streams() {
    queries_are_read_back();
    facts_are_read_back();
}
