// Denials of axioms, worked out by hand from the table of negatives.
use dl_deny::{Denial, denials};
use dl_terms::{Atom, Axiom, Base, Basic, NoMemory, Part, Role, Term};
use dl_tests_base::axioms::{Row, axioms_of};
use std::alloc::Global;

const A: Basic = Basic::Class(0);

const B: Basic = Basic::Class(1);

const P: Role = Role {
    base: Base::Named(3),
    inverse: false,
};

const P_INVERSE: Role = Role {
    base: Base::Named(3),
    inverse: true,
};

const X: Term = Term::Var(0);

const Y: Term = Term::Var(1);

const Z: Term = Term::Var(2);

const IS_A: Atom = Atom::Is { class: 0, at: X };

const IS_B: Atom = Atom::Is { class: 1, at: X };

const IS_NOTHING: Atom = Atom::Is { class: 2, at: X };

const P_X_X: Atom = Atom::Link {
    role: 3,
    from: X,
    to: X,
};

const P_X_Y: Atom = Atom::Link {
    role: 3,
    from: X,
    to: Y,
};

const P_Y_X: Atom = Atom::Link {
    role: 3,
    from: Y,
    to: X,
};

const P_Z_X: Atom = Atom::Link {
    role: 3,
    from: Z,
    to: X,
};

/// Axioms with negatives of each kind, and one with none.
const AXIOMS: &[Row] = &[
    Row::SubClass(A, &[Part::Class(1), Part::Not(Basic::SomeOf(P))]),
    Row::DisjointClasses(&[Basic::SomeOf(P), Basic::SomeOf(P_INVERSE), B]),
    Row::SubRole(P, P_INVERSE),
    Row::Asymmetric(P),
    Row::Irreflexive(P_INVERSE),
];

/// A denial: the index of its axiom, or none for owl:Nothing; its atoms; and the number of its variables.
type Denied = (Option<usize>, &'static [Atom], u8);

/// The denials of these axioms, where owl:Nothing is the class 2.
const DENIED: &[Denied] = &[
    (Some(0), &[IS_A, P_X_Y], 2),
    (Some(1), &[P_X_Y, P_Z_X], 3),
    (Some(1), &[P_X_Y, IS_B], 2),
    (Some(1), &[P_Y_X, IS_B], 2),
    (Some(3), &[P_X_Y, P_Y_X], 2),
    (Some(4), &[P_X_X], 1),
    (None, &[IS_NOTHING, IS_NOTHING], 1),
];

/// Whether a denial is beside this axiom, with no head, these atoms and so many variables.
fn is_row(denial: &Denial, row: &Denied, axioms: &[Axiom]) -> bool {
    let stated = match row.0 {
        Some(index) => axioms.get(index),
        None => None,
    };
    denial.axiom.as_ref() == stated
        && denial.query.head.len() == 0
        && denial.query.atoms.as_slice() == row.1
        && denial.query.vars == row.2
}

/// Whether the denials are these rows.
fn are_rows(found: &[Denial], rows: &[Denied], axioms: &[Axiom]) -> bool {
    for (denial, row) in found.iter().zip(rows) {
        if !is_row(denial, row, axioms) {
            return false;
        }
    }
    found.len() == rows.len()
}

/// Whether axioms have these denials, with the number of owl:Nothing if it is a name.
fn are_denied(
    alloc: Global,
    axioms: &[Row],
    nothing: Option<u32>,
    rows: &[Denied],
) -> Result<bool, NoMemory> {
    let axioms = axioms_of(alloc, axioms)?;
    let found = denials(alloc, axioms.as_slice(), nothing)?;
    Ok(are_rows(found.as_slice(), rows, axioms.as_slice()))
}

#[test]
fn denials_of_each_kind(rt: HostRuntime) {
    assert!(rt; matches!(are_denied(rt.alloc(), AXIOMS, Some(2), DENIED), Ok(true)));
    assert!(rt; matches!(are_denied(rt.alloc(), AXIOMS, None, &DENIED[..6]), Ok(true)));
    assert!(rt; matches!(are_denied(rt.alloc(), &[], None, &[]), Ok(true)));
}
