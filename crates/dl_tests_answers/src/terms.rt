ghost use Rattle.std.specs.Prelude.{◌≡◌, ◌<◌, length};

use dl_terms::{
    Axiom, Base, Basic, Fact, List, Part, Role, Steps, Tuples, axioms_are_ordered,
    facts_are_ordered, roles_are_ordered, set_of,
};
use dl_tests_base::axioms::{Row, axioms_of};
use std::alloc::Global;
use std::marker::Brand;
use std::sync::ledger::{Blank, Ledger};
use std::test::Fail;

const P: Role = Role {
    base: Base::Named(7),
    inverse: false,
};

const INVERSE: Role = Role {
    base: Base::Named(7),
    inverse: true,
};

const AUXILIARY: Role = Role {
    base: Base::Auxiliary {
        role: 0,
        inverse: false,
        class: 0,
    },
    inverse: false,
};

/// Axioms in their order: by kind, and then by operands from left to right.
const ASCENDING: &[Row] = &[
    Row::SubClass(Basic::Class(1), &[]),
    Row::SubClass(Basic::Class(1), &[Part::Thing]),
    Row::SubClass(Basic::Class(1), &[Part::Any(P)]),
    Row::SubClass(Basic::Class(2), &[Part::Thing]),
    Row::SubClass(Basic::SomeOf(P), &[Part::Thing]),
    Row::SubClass(Basic::SomeOf(INVERSE), &[Part::Thing]),
    Row::SubClass(Basic::SomeOf(AUXILIARY), &[Part::Thing]),
    Row::DisjointClasses(&[Basic::Class(1)]),
    Row::SubRole(P, INVERSE),
    Row::Symmetric(P),
    Row::Irreflexive(P),
];

/// Whether the axiom compares with each as their indices do.
fn compares(axiom: &Axiom, index: usize, axioms: &[Axiom]) -> bool {
    for (other, there) in axioms.iter().enumerate() {
        if axiom.cmp(there) != index.cmp(&other) {
            return false;
        }
    }
    true
}

/// Whether the axioms ascend.
fn ascend(axioms: &[Axiom]) -> bool {
    for (index, axiom) in axioms.iter().enumerate() {
        if !compares(axiom, index, axioms) {
            return false;
        }
    }
    true
}

/// Whether the axioms of some rows are as many, and ascend.
fn are_ascending(alloc: Global, rows: &[Row]) -> bool {
    match axioms_of(alloc, rows) {
        Ok(axioms) => {
            axioms.len() == rows.len()
                && axioms.get(axioms.len()).is_none()
                && ascend(axioms.as_slice())
        }
        Err(_) => false,
    }
}

const IS: Fact = Fact::Is { class: 9, who: 9 };

const LINK: Fact = Fact::Link {
    role: 1,
    from: 1,
    to: 1,
};

#[test]
fn orders_are_total() {
    roles_are_ordered();
    axioms_are_ordered();
    facts_are_ordered();
}

#[test]
fn axioms_ascend(rt: HostRuntime) {
    assert!(rt; are_ascending(rt.alloc(), ASCENDING));
    assert!(rt; IS < LINK);
}

/// Whether the tuples of two names have these, in order.
fn have(tuples: &Tuples, rows: &[(u32, u32)]) -> bool
    requires as_many { length tuples.now.tuples ≡ length rows.now }
    requires twos { tuples.now.width ≡ 2 }
{
    for (index, row) in rows.iter().enumerate() {
        if (tuples.name(index as u64, 0), tuples.name(index as u64, 1)) != *row {
            return false;
        }
    }
    true
}

#[test]
fn tuples_keep_their_names(rt: HostRuntime) -> Result<(), Fail> {
    let mut tuples = Tuples::new(rt.alloc(), 2);
    tuples.push(&[3, 1])?;
    tuples.push(&[0, 9])?;
    tuples.push(&[3, 1])?;
    assert!(rt; tuples.width() == 2);
    assert!(rt; tuples.len() == 3);
    assert!(rt; have(&tuples, &[(3, 1), (0, 9), (3, 1)]));
    Ok(())
}

#[test]
fn lists_become_sets(rt: HostRuntime) -> Result<(), Fail> {
    let items = [3, 1, 3, 2, 1].to_vec(rt.alloc())?;
    let mut list = List::of(items);
    list.as_mut_slice().reverse();
    assert!(rt; list.as_slice() == [1, 2, 3, 1, 3].as_slice());
    let set = set_of(list).into_vec();
    assert!(rt; set.as_slice() == [1, 2, 3].as_slice());
    Ok(())
}

/// Takes three steps.
fn take_three<L: Ledger>(blank: Blank)
    requires name { blank.name ≡ L.name }
    requires parts { blank.parts ≡ L.parts }
    requires divided { 0 < L.parts }
{
    let mut steps = Steps::<L>::new(blank);
    steps.tick();
    steps.tick();
    steps.tick();
}

#[test]
fn steps_are_taken(rt: HostRuntime) {
    take_three::<Brand>(Blank::new(1));
}
