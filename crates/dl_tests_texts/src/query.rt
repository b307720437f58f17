use crate::triples::has_names;
use dl_names::NameSet;
use dl_query::{ranked, read_query};
use dl_terms::{Atom, Query, Term};
use std::alloc::Global;

const X: Term = Term::Var(0);

const Y: Term = Term::Var(1);

const Z: Term = Term::Var(2);

/// A text, and the query that it is: its names by first occurrence, head, atoms and number of variables.
struct Row {
    text: &'static str,
    names: &'static [&'static str],
    head: &'static [u8],
    atoms: &'static [Atom],
    vars: u8,
}

const QUERIES: &[Row] = &[
    Row {
        text: "q(?x) :- <A>(?x)",
        names: &["A"],
        head: &[0],
        atoms: &[Atom::Is { class: 0, at: X }],
        vars: 1,
    },
    Row {
        text: "\t q \r\n( ?x )\n:-\t<A> ( ?x ) \r\n",
        names: &["A"],
        head: &[0],
        atoms: &[Atom::Is { class: 0, at: X }],
        vars: 1,
    },
    Row {
        text: "q():-<P>(?y,?y)",
        names: &["P"],
        head: &[],
        atoms: &[Atom::Link {
            role: 0,
            from: X,
            to: X,
        }],
        vars: 1,
    },
    // Names by first occurrence, of individuals too.
    Row {
        text: "q() :- <A>(<b>), <b>(<b>, <a>), <A>(<a>)",
        names: &["A", "b", "a"],
        head: &[],
        atoms: &[
            Atom::Is {
                class: 0,
                at: Term::Name(1),
            },
            Atom::Link {
                role: 1,
                from: Term::Name(1),
                to: Term::Name(2),
            },
            Atom::Is {
                class: 0,
                at: Term::Name(2),
            },
        ],
        vars: 0,
    },
    // Variables by first occurrence, those of the head first.
    Row {
        text: "q(?b, ?a, ?b) :- <P>(?c, ?a), <R>(?a, ?b)",
        names: &["P", "R"],
        head: &[0, 1, 0],
        atoms: &[
            Atom::Link {
                role: 0,
                from: Z,
                to: Y,
            },
            Atom::Link {
                role: 1,
                from: Y,
                to: X,
            },
        ],
        vars: 3,
    },
    // Variables of any length; letters of two cases differ.
    Row {
        text: "q(?X) :- <P>(?x, ?X), <P>(?_0aZ9_a_variable_with_a_rather_long_name, ?x)",
        names: &["P"],
        head: &[0],
        atoms: &[
            Atom::Link {
                role: 0,
                from: Y,
                to: X,
            },
            Atom::Link {
                role: 0,
                from: Z,
                to: Y,
            },
        ],
        vars: 3,
    },
    // The empty IRI, one that isn't ASCII, and owl:Nothing as a class.
    Row {
        text: "q() :- <>(<é,(?x)>), <http://www.w3.org/2002/07/owl#Nothing>(<>)",
        names: &["", "é,(?x)", "http://www.w3.org/2002/07/owl#Nothing"],
        head: &[],
        atoms: &[
            Atom::Is {
                class: 0,
                at: Term::Name(1),
            },
            Atom::Is {
                class: 2,
                at: Term::Name(0),
            },
        ],
        vars: 0,
    },
    // Eight existential variables.
    Row {
        text: "q() :- <P>(?a, ?b), <P>(?c, ?d), <P>(?e, ?f), <P>(?g, ?h)",
        names: &["P"],
        head: &[],
        atoms: &[
            Atom::Link {
                role: 0,
                from: X,
                to: Y,
            },
            Atom::Link {
                role: 0,
                from: Z,
                to: Term::Var(3),
            },
            Atom::Link {
                role: 0,
                from: Term::Var(4),
                to: Term::Var(5),
            },
            Atom::Link {
                role: 0,
                from: Term::Var(6),
                to: Term::Var(7),
            },
        ],
        vars: 8,
    },
];

/// Whether the query is that of the row.
fn is_row(query: &Query, row: &Row) -> bool {
    query.head.as_slice() == row.head
        && query.atoms.as_slice() == row.atoms
        && query.vars == row.vars
}

/// Whether each text is read as its row says.
fn all_read(alloc: Global, rows: &[Row]) -> bool {
    for row in rows {
        let mut names = NameSet::new(alloc);
        let Ok(query) = read_query(alloc, row.text.as_bytes(), &mut names) else {
            return false;
        };
        if !is_row(&query, row) || !has_names(&mut names, row.names) {
            return false;
        }
    }
    true
}

#[test]
fn texts_are_read_with_their_places(rt: HostRuntime) {
    assert!(rt; all_read(rt.alloc(), QUERIES));
}

/// Whether the query is this one, whose names have numbers by their order: A is 0, and P, which is read first, is 1.
fn has_numbers(query: &Query) -> bool {
    let atoms = [Atom::Link {
        role: 1,
        from: X,
        to: Term::Name(0),
    }];
    query.head.as_slice() == [0].as_slice()
        && query.atoms.as_slice() == atoms.as_slice()
        && query.vars == 1
}

/// Whether the names of a text get their numbers.
fn is_ranked(alloc: Global, text: &[u8]) -> bool {
    let mut names = NameSet::new(alloc);
    let Ok(mut query) = read_query(alloc, text, &mut names) else {
        return false;
    };
    let Ok((_, ranks)) = names.freeze() else {
        return false;
    };
    ranked(&mut query, &ranks);
    has_numbers(&query)
}

#[test]
fn names_of_queries_get_their_numbers(rt: HostRuntime) {
    assert!(rt; is_ranked(rt.alloc(), b"q(?x) :- <P>(?x, <A>)"));
}
