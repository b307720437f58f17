use dl_normal::{auxiliaries, auxiliaries_are_of_parts, normal, weight};
use dl_terms::{Base, Basic, Negative, NoMemory, Part, Role};
use dl_tests_base::axioms::{Row, axioms_of};
use std::alloc::Global;

const A: Basic = Basic::Class(0);

const C: Basic = Basic::Class(1);

const D: Basic = Basic::Class(2);

const P: Role = Role {
    base: Base::Named(3),
    inverse: false,
};

const P_INVERSE: Role = Role {
    base: Base::Named(3),
    inverse: true,
};

const S: Role = Role {
    base: Base::Named(4),
    inverse: false,
};

const S_INVERSE: Role = Role {
    base: Base::Named(4),
    inverse: true,
};

/// The auxiliary role of P and C, and its inverse.
const AUXILIARY: Role = Role {
    base: Base::Auxiliary {
        role: 3,
        inverse: false,
        class: 1,
    },
    inverse: false,
};

const AUXILIARY_INVERSE: Role = Role {
    base: Base::Auxiliary {
        role: 3,
        inverse: false,
        class: 1,
    },
    inverse: true,
};

/// Axioms of each kind.
const AXIOMS: &[Row] = &[
    Row::SubClass(
        A,
        &[
            Part::Thing,
            Part::Class(1),
            Part::Any(S),
            Part::Fill(P, 1),
            Part::Not(D),
        ],
    ),
    Row::EquivalentClasses(&[A, Basic::SomeOf(P), D]),
    Row::DisjointClasses(&[A, Basic::SomeOf(P), D]),
    Row::SubRole(P, S_INVERSE),
    Row::EquivalentRoles(&[P, S, P_INVERSE]),
    Row::DisjointRoles(&[P, S, P_INVERSE]),
    Row::InverseRoles(P, S),
    Row::Domain(S, &[Part::Class(1)]),
    Row::Range(S, &[Part::Fill(P, 1), Part::Not(D)]),
    Row::Symmetric(P),
    Row::Asymmetric(P),
    Row::Irreflexive(P),
];

/// An axiom without a meaning.
const THING: &[Row] = &[Row::SubClass(A, &[Part::Thing])];

/// The rows of these axioms, by the table of the normal form.
const ROLES: [(Role, Role); 9] = [
    (AUXILIARY, P),
    (P, S_INVERSE),
    (P, S),
    (S, P_INVERSE),
    (P_INVERSE, P),
    (P, S_INVERSE),
    (S_INVERSE, P),
    (AUXILIARY, P),
    (P, P_INVERSE),
];

const CONCEPTS: [(Basic, Basic); 10] = [
    (A, C),
    (A, Basic::SomeOf(S)),
    (A, Basic::SomeOf(AUXILIARY)),
    (Basic::SomeOf(AUXILIARY_INVERSE), C),
    (A, Basic::SomeOf(P)),
    (Basic::SomeOf(P), D),
    (D, A),
    (Basic::SomeOf(S), C),
    (Basic::SomeOf(S_INVERSE), Basic::SomeOf(AUXILIARY)),
    (Basic::SomeOf(AUXILIARY_INVERSE), C),
];

const NEGATIVES: [(u32, Negative); 10] = [
    (0, Negative::Basics(A, D)),
    (2, Negative::Basics(A, Basic::SomeOf(P))),
    (2, Negative::Basics(A, D)),
    (2, Negative::Basics(Basic::SomeOf(P), D)),
    (5, Negative::Roles(P, S)),
    (5, Negative::Roles(P, P_INVERSE)),
    (5, Negative::Roles(S, P_INVERSE)),
    (8, Negative::Basics(Basic::SomeOf(S_INVERSE), D)),
    (10, Negative::Roles(P, P_INVERSE)),
    (11, Negative::NoLoop(P)),
];

/// Whether the axioms have these rows.
fn has_rows(alloc: Global) -> Result<bool, NoMemory> {
    let axioms = axioms_of(alloc, AXIOMS)?;
    if axioms.len() != 12 {
        return Ok(false);
    }
    let rows = normal(alloc, axioms.as_slice())?;
    Ok(
        rows.roles.as_slice() == ROLES.as_slice()
            && rows.concepts.as_slice() == CONCEPTS.as_slice()
            && rows.negatives.as_slice() == NEGATIVES.as_slice(),
    )
}

#[test]
fn rows_of_each_kind(rt: HostRuntime) {
    assert!(rt; matches!(has_rows(rt.alloc()), Ok(true)));
}

/// Whether the axioms of some rows weigh so much and have so many auxiliary roles.
fn weighs(alloc: Global, rows: &[Row], wanted: u64, filled: u64) -> Result<bool, NoMemory> {
    let axioms = axioms_of(alloc, rows)?;
    Ok(weight(axioms.as_slice()) == wanted && auxiliaries(alloc, axioms.as_slice())? == filled)
}

#[test]
fn weights_and_auxiliaries(rt: HostRuntime) {
    auxiliaries_are_of_parts();
    assert!(rt; matches!(weighs(rt.alloc(), AXIOMS, 29, 1), Ok(true)));
    assert!(rt; matches!(weighs(rt.alloc(), THING, 1, 0), Ok(true)));
}
