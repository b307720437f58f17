// Finite interpretations: what they accept and hold, worked out by hand.
use dl_models::Interp;
use dl_terms::{Atom, Base, Basic, Fact, NoMemory, Part, Query, Role, Term};
use dl_tests_base::axioms::{Row, axiom_of, list_of};
use std::alloc::{AllocError, Global};

const A: Basic = Basic::Class(0);

const B: Basic = Basic::Class(1);

const C: Basic = Basic::Class(2);

const P: Role = Role {
    base: Base::Named(3),
    inverse: false,
};

const P_INVERSE: Role = Role {
    base: Base::Named(3),
    inverse: true,
};

const Q: Role = Role {
    base: Base::Named(4),
    inverse: false,
};

const R: Role = Role {
    base: Base::Named(5),
    inverse: false,
};

const R_INVERSE: Role = Role {
    base: Base::Named(5),
    inverse: true,
};

/// A role that links nothing.
const NONE: Role = Role {
    base: Base::Named(6),
    inverse: false,
};

const X: Term = Term::Var(0);

const Y: Term = Term::Var(1);

/// The parts of an interpretation: its size, elements of names, members and links.
struct Parts {
    size: u32,
    names: &'static [(u32, u32)],
    classes: &'static [(u32, u32)],
    links: &'static [(u32, u32, u32)],
}

/// A query over two variables, by head and atoms; a tuple; and whether it holds of the tuple.
type Held = (&'static [u8], &'static [Atom], &'static [u32], bool);

/// An interpretation, and what it accepts and holds.
struct Case {
    parts: Parts,
    axioms: &'static [(Row, bool)],
    facts: &'static [(Fact, bool)],
    queries: &'static [Held],
}

const AXIOMS: &[(Row, bool)] = &[
    // Inclusions of classes.
    (Row::SubClass(A, &[Part::Thing]), true),
    (Row::SubClass(A, &[Part::Class(0)]), true),
    (Row::SubClass(A, &[Part::Class(1)]), false),
    (Row::SubClass(A, &[Part::Any(P)]), true),
    (Row::SubClass(B, &[Part::Any(P)]), false),
    (Row::SubClass(B, &[Part::Any(P_INVERSE)]), true),
    (Row::SubClass(A, &[Part::Fill(P, 1)]), true),
    (Row::SubClass(A, &[Part::Fill(P, 0)]), false),
    (Row::SubClass(B, &[Part::Fill(P_INVERSE, 0)]), true),
    (Row::SubClass(A, &[Part::Not(B)]), true),
    (Row::SubClass(A, &[Part::Not(Basic::SomeOf(P))]), false),
    (
        Row::SubClass(A, &[Part::Not(Basic::SomeOf(P_INVERSE))]),
        true,
    ),
    (Row::SubClass(Basic::SomeOf(P), &[Part::Class(1)]), false),
    // Equivalence and disjointness of basic concepts.
    (
        Row::EquivalentClasses(&[A, Basic::SomeOf(P), Basic::SomeOf(Q)]),
        true,
    ),
    (
        Row::DisjointClasses(&[A, Basic::SomeOf(P), Basic::SomeOf(Q)]),
        false,
    ),
    (Row::EquivalentClasses(&[C, A]), false),
    (Row::DisjointClasses(&[C, A]), true),
    (Row::EquivalentClasses(&[A, B]), false),
    (Row::DisjointClasses(&[A, B]), true),
    (Row::EquivalentClasses(&[A, B, Basic::SomeOf(P)]), false),
    (Row::DisjointClasses(&[A, B, Basic::SomeOf(P)]), false),
    (Row::EquivalentClasses(&[A, A]), true),
    (Row::DisjointClasses(&[A, A]), false),
    (Row::EquivalentClasses(&[C, C]), true),
    (Row::DisjointClasses(&[C, C]), true),
    // Inclusion, equivalence and disjointness of two roles, and whether they are inverse.
    (Row::SubRole(P, R), false),
    (Row::EquivalentRoles(&[P, R]), false),
    (Row::DisjointRoles(&[P, R]), true),
    (Row::InverseRoles(P, R), true),
    (Row::SubRole(P_INVERSE, R), true),
    (Row::EquivalentRoles(&[P_INVERSE, R]), true),
    (Row::DisjointRoles(&[P_INVERSE, R]), false),
    (Row::InverseRoles(P_INVERSE, R), false),
    (Row::SubRole(P, R_INVERSE), true),
    (Row::EquivalentRoles(&[P, R_INVERSE]), true),
    (Row::DisjointRoles(&[P, R_INVERSE]), false),
    (Row::InverseRoles(P, R_INVERSE), false),
    (Row::SubRole(P, Q), false),
    (Row::EquivalentRoles(&[P, Q]), false),
    (Row::DisjointRoles(&[P, Q]), true),
    (Row::InverseRoles(P, Q), false),
    (Row::SubRole(Q, Q), true),
    (Row::EquivalentRoles(&[Q, Q]), true),
    (Row::DisjointRoles(&[Q, Q]), false),
    (Row::InverseRoles(Q, Q), true),
    (Row::SubRole(NONE, P), true),
    (Row::EquivalentRoles(&[NONE, P]), false),
    (Row::DisjointRoles(&[NONE, P]), true),
    (Row::InverseRoles(NONE, P), false),
    // Domains and ranges.
    (Row::Domain(P, &[Part::Thing, Part::Class(0)]), true),
    (Row::Range(P, &[Part::Thing, Part::Class(0)]), false),
    (Row::Domain(P, &[Part::Thing, Part::Class(1)]), false),
    (Row::Range(P, &[Part::Thing, Part::Class(1)]), true),
    (Row::Domain(R, &[Part::Thing, Part::Class(0)]), false),
    (Row::Range(R, &[Part::Thing, Part::Class(0)]), true),
    // Kinds of one role.
    (Row::Symmetric(P), false),
    (Row::Asymmetric(P), true),
    (Row::Irreflexive(P), true),
    (Row::Symmetric(Q), true),
    (Row::Asymmetric(Q), false),
    (Row::Irreflexive(Q), false),
    (Row::Symmetric(NONE), true),
    (Row::Asymmetric(NONE), true),
    (Row::Irreflexive(NONE), true),
];

const FACTS: &[(Fact, bool)] = &[
    (Fact::Is { class: 0, who: 10 }, true),
    (Fact::Is { class: 0, who: 11 }, false),
    (Fact::Is { class: 0, who: 12 }, false),
    (P_10_11, true),
    (P_11_10, false),
    (P_10_12, false),
];

const P_10_11: Fact = Fact::Link {
    role: 3,
    from: 10,
    to: 11,
};

const P_11_10: Fact = Fact::Link {
    role: 3,
    from: 11,
    to: 10,
};

const P_10_12: Fact = Fact::Link {
    role: 3,
    from: 10,
    to: 12,
};

const P_X_Y: Atom = Atom::Link {
    role: 3,
    from: X,
    to: Y,
};

const P_X_X: Atom = Atom::Link {
    role: 3,
    from: X,
    to: X,
};

const Q_X_X: Atom = Atom::Link {
    role: 4,
    from: X,
    to: X,
};

const P_10_Y: Atom = Atom::Link {
    role: 3,
    from: Term::Name(10),
    to: Y,
};

const P_11_Y: Atom = Atom::Link {
    role: 3,
    from: Term::Name(11),
    to: Y,
};

const A_Y: Atom = Atom::Is { class: 0, at: Y };

const B_Y: Atom = Atom::Is { class: 1, at: Y };

const B_X: Atom = Atom::Is { class: 1, at: X };

const QUERIES: &[Held] = &[
    (&[], &[P_X_Y], &[], true),
    (&[], &[P_X_X], &[], false),
    (&[], &[Q_X_X], &[], true),
    (&[], &[P_10_Y], &[], true),
    (&[], &[P_11_Y], &[], false),
    (&[], &[P_X_Y, B_Y], &[], true),
    (&[], &[P_X_Y, A_Y], &[], false),
    (&[0, 1], &[P_X_Y], &[10, 11], true),
    (&[0, 1], &[P_X_Y], &[11, 10], false),
    (&[0, 0], &[P_X_Y], &[10, 10], true),
    (&[0, 0], &[P_X_Y], &[10, 11], false),
    (&[0], &[P_X_Y], &[12], false),
];

const CASES: &[Case] = &[
    // Two elements with the names 10 and 11: 0 is an A with the P-neighbour 1, which is a B; R is P turned, and Q leads
    // from 0 to itself. Nothing is a C.
    Case {
        parts: Parts {
            size: 2,
            names: &[(10, 0), (11, 1)],
            classes: &[(0, 0), (1, 1)],
            links: &[(3, 0, 1), (4, 0, 0), (5, 1, 0)],
        },
        axioms: AXIOMS,
        facts: FACTS,
        queries: QUERIES,
    },
    // One element, in no class and in one.
    Case {
        parts: Parts {
            size: 1,
            names: &[],
            classes: &[],
            links: &[],
        },
        axioms: &[(Row::SubClass(A, &[Part::Any(P)]), true)],
        facts: &[],
        queries: &[],
    },
    Case {
        parts: Parts {
            size: 1,
            names: &[],
            classes: &[(0, 0)],
            links: &[],
        },
        axioms: &[(Row::SubClass(A, &[Part::Any(P)]), false)],
        facts: &[],
        queries: &[],
    },
    // A member of a class and of one above it.
    Case {
        parts: Parts {
            size: 1,
            names: &[(10, 0)],
            classes: &[(0, 0), (1, 0)],
            links: &[],
        },
        axioms: &[(Row::SubClass(A, &[Part::Class(1)]), true)],
        facts: &[(Fact::Is { class: 0, who: 10 }, true)],
        queries: &[(&[0], &[B_X], &[10], true)],
    },
];

/// Parts of none: names have to ascend, and elements to be below the size, which is not 0.
const NONE_OF: &[Parts] = &[
    Parts {
        size: 2,
        names: &[(11, 0), (10, 1)],
        classes: &[],
        links: &[],
    },
    Parts {
        size: 2,
        names: &[(10, 0), (10, 0)],
        classes: &[],
        links: &[],
    },
    Parts {
        size: 2,
        names: &[],
        classes: &[(0, 2)],
        links: &[],
    },
    Parts {
        size: 0,
        names: &[],
        classes: &[],
        links: &[],
    },
];

/// The interpretation of these parts, if they are those of one.
fn interpretation(alloc: Global, parts: &Parts) -> Result<Option<Interp>, AllocError> {
    let names = list_of(alloc, parts.names)?;
    let classes = list_of(alloc, parts.classes)?;
    let links = list_of(alloc, parts.links)?;
    Ok(Interp::new(parts.size, names, classes, links))
}

/// Whether axioms are accepted as these rows say.
fn are_axioms(alloc: Global, model: &Interp, rows: &[(Row, bool)]) -> bool {
    for (row, expected) in rows {
        let Ok(stated) = axiom_of(alloc, row) else {
            return false;
        };
        if model.accepts_axiom(&stated) != *expected {
            return false;
        }
    }
    true
}

/// Whether facts are accepted as these rows say.
fn are_facts(model: &Interp, rows: &[(Fact, bool)]) -> bool {
    for (fact, expected) in rows {
        if model.accepts_fact(fact) != *expected {
            return false;
        }
    }
    true
}

/// Whether the query of a row holds of its tuple.
fn holds(alloc: Global, model: &Interp, row: &Held) -> Result<bool, NoMemory> {
    let query = Query {
        head: list_of(alloc, row.0)?,
        atoms: list_of(alloc, row.1)?,
        vars: 2,
    };
    model.holds(alloc, &query, row.2)
}

/// Whether queries hold as these rows say.
fn are_held(alloc: Global, model: &Interp, rows: &[Held]) -> bool {
    for row in rows {
        let Ok(found) = holds(alloc, model, row) else {
            return false;
        };
        if found != row.3 {
            return false;
        }
    }
    true
}

/// Whether an interpretation is as each case says.
fn agree(alloc: Global, cases: &[Case]) -> bool {
    for case in cases {
        let Ok(Some(model)) = interpretation(alloc, &case.parts) else {
            return false;
        };
        if !are_axioms(alloc, &model, case.axioms)
            || !are_facts(&model, case.facts)
            || !are_held(alloc, &model, case.queries)
        {
            return false;
        }
    }
    true
}

/// Whether none of these is an interpretation.
fn are_none(alloc: Global, rows: &[Parts]) -> bool {
    for parts in rows {
        let Ok(None) = interpretation(alloc, parts) else {
            return false;
        };
    }
    true
}

#[test]
fn interpretations_accept_and_hold(rt: HostRuntime) {
    assert!(rt; agree(rt.alloc(), CASES));
    assert!(rt; are_none(rt.alloc(), NONE_OF));
}
