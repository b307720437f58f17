use dl_hier::{Hier, MAX_PREDICATES, fits};
use dl_normal::normal;
use dl_terms::{Base, Basic, NoMemory, Normal, Part, Role, Signature};
use dl_tests_base::axioms::{Row, axioms_of, list_of};
use std::alloc::{AllocError, Global};

const P: Role = Role {
    base: Base::Named(10),
    inverse: false,
};

const P_INVERSE: Role = Role {
    base: Base::Named(10),
    inverse: true,
};

const Q: Role = Role {
    base: Base::Named(11),
    inverse: false,
};

const Q_INVERSE: Role = Role {
    base: Base::Named(11),
    inverse: true,
};

const R: Role = Role {
    base: Base::Named(12),
    inverse: false,
};

const R_INVERSE: Role = Role {
    base: Base::Named(12),
    inverse: true,
};

const S: Role = Role {
    base: Base::Named(13),
    inverse: false,
};

const S_INVERSE: Role = Role {
    base: Base::Named(13),
    inverse: true,
};

const T: Role = Role {
    base: Base::Named(14),
    inverse: false,
};

const T_INVERSE: Role = Role {
    base: Base::Named(14),
    inverse: true,
};

/// The auxiliary role of P and the class 1, and its inverse.
const AUXILIARY: Role = Role {
    base: Base::Auxiliary {
        role: 10,
        inverse: false,
        class: 1,
    },
    inverse: false,
};

const AUXILIARY_INVERSE: Role = Role {
    base: Base::Auxiliary {
        role: 10,
        inverse: false,
        class: 1,
    },
    inverse: true,
};

/// No name of the signature.
const UNKNOWN: Role = Role {
    base: Base::Named(99),
    inverse: false,
};

/// P in the inverse of Q, the inverse of R in Q, S symmetric, R and T equivalent, the class 0 in some P in 1, some Q
/// in 2.
const AXIOMS: &[Row] = &[
    Row::SubRole(P, Q_INVERSE),
    Row::SubRole(R_INVERSE, Q),
    Row::Symmetric(S),
    Row::EquivalentRoles(&[R, T]),
    Row::SubClass(Basic::Class(0), &[Part::Fill(P, 1)]),
    Row::Domain(Q, &[Part::Class(2)]),
];

fn signature_of(alloc: Global, roles: &[u32]) -> Result<Signature, AllocError> {
    Ok(Signature {
        classes: list_of(alloc, &[0, 1, 2])?,
        roles: list_of(alloc, roles)?,
    })
}

/// The normal form of the axioms, of which there are six.
fn normal_of(alloc: Global) -> Result<Option<Normal>, NoMemory> {
    let axioms = axioms_of(alloc, AXIOMS)?;
    if axioms.len() != 6 {
        return Ok(None);
    }
    let normal = normal(alloc, axioms.as_slice())?;
    Ok(Some(normal))
}

/// The hierarchy of a normal form over three classes and these roles, or none where it can't be built.
fn hier_of(alloc: Global, normal: &Normal, roles: &[u32]) -> Result<Option<Hier>, NoMemory> {
    let signature = signature_of(alloc, roles)?;
    if !fits(alloc, normal, &signature)? {
        return Ok(None);
    }
    let hier = Hier::build(alloc, normal, &signature)?;
    Ok(Some(hier))
}

/// What is below what among the roles, by the definition.
const ROLES: [(Role, Role, bool); 20] = [
    (P, Q_INVERSE, true),
    (P_INVERSE, Q, true),
    (P, Q, false),
    (Q, P_INVERSE, false),
    (R_INVERSE, Q, true),
    (R, Q_INVERSE, true),
    (R, Q, false),
    (S, S_INVERSE, true),
    (S_INVERSE, S, true),
    (S, P, false),
    (T, R, true),
    (R, T, true),
    (T_INVERSE, Q, true),
    (AUXILIARY, P, true),
    (AUXILIARY, Q_INVERSE, true),
    (AUXILIARY_INVERSE, P, false),
    (P, AUXILIARY, false),
    (UNKNOWN, UNKNOWN, true),
    (UNKNOWN, P, false),
    (P, UNKNOWN, false),
];

/// And among the basic concepts.
const BASICS: [(Basic, Basic, bool); 14] = [
    (Basic::Class(0), Basic::SomeOf(AUXILIARY), true),
    (Basic::Class(0), Basic::SomeOf(P), true),
    (Basic::Class(0), Basic::SomeOf(Q_INVERSE), true),
    (Basic::Class(0), Basic::Class(2), false),
    (Basic::Class(0), Basic::Class(1), false),
    (Basic::SomeOf(AUXILIARY_INVERSE), Basic::Class(1), true),
    (Basic::SomeOf(AUXILIARY_INVERSE), Basic::Class(2), true),
    (Basic::SomeOf(P_INVERSE), Basic::Class(2), true),
    (Basic::SomeOf(P_INVERSE), Basic::Class(1), false),
    (Basic::SomeOf(P), Basic::Class(2), false),
    (Basic::SomeOf(T_INVERSE), Basic::Class(2), true),
    (Basic::Class(99), Basic::Class(99), true),
    (Basic::Class(99), Basic::Class(0), false),
    (Basic::Class(0), Basic::SomeOf(UNKNOWN), false),
];

/// Whether the roles are below each other as the table says.
fn agrees_on_roles(hier: &Hier) -> bool {
    for (sub, sup, below) in &ROLES {
        if hier.role_below(*sub, *sup) != *below {
            return false;
        }
    }
    true
}

/// Whether the basic concepts are below each other as the table says.
fn agrees_on_basics(hier: &Hier) -> bool {
    for (sub, sup, below) in &BASICS {
        if hier.basic_below(*sub, *sup) != *below {
            return false;
        }
    }
    true
}

const ALL_ROLES: [Role; 12] = [
    P,
    P_INVERSE,
    Q,
    Q_INVERSE,
    R,
    R_INVERSE,
    S,
    S_INVERSE,
    T,
    T_INVERSE,
    AUXILIARY,
    AUXILIARY_INVERSE,
];

/// What is below the class 2.
fn has_predicates_below(alloc: Global, hier: &Hier) -> Result<bool, NoMemory> {
    let below = hier.predicates_below(alloc, &[Basic::Class(2), Basic::Class(99)])?;
    Ok(
        below.classes.as_slice() == [2].as_slice()
            && below.forward.as_slice() == [11].as_slice()
            && below.backward.as_slice() == [10, 12, 14].as_slice(),
    )
}

/// What is below the role Q.
fn has_roles_below(alloc: Global, hier: &Hier) -> Result<bool, NoMemory> {
    let below = hier.roles_below(alloc, Q)?;
    Ok(
        below.classes.len() == 0
            && below.forward.as_slice() == [11].as_slice()
            && below.backward.as_slice() == [10, 12, 14].as_slice(),
    )
}

/// What is above the auxiliary role, and what may follow it.
fn has_roles_of_the_auxiliary(alloc: Global, hier: &Hier) -> Result<bool, NoMemory> {
    let above = hier.roles_above(alloc, AUXILIARY)?;
    let after = hier.followers(alloc, AUXILIARY)?;
    Ok(
        above.as_slice() == [P, Q_INVERSE, AUXILIARY].as_slice()
            && after.as_slice() == [P_INVERSE, Q, AUXILIARY_INVERSE].as_slice(),
    )
}

/// Whether a hierarchy is that of the axioms in all that it tells.
fn agrees(alloc: Global, hier: &Hier) -> Result<bool, NoMemory> {
    if !agrees_on_roles(hier) || !agrees_on_basics(hier) || hier.roles() != ALL_ROLES.as_slice() {
        return Ok(false);
    }
    Ok(
        has_predicates_below(alloc, hier)?
            && has_roles_below(alloc, hier)?
            && has_roles_of_the_auxiliary(alloc, hier)?,
    )
}

/// Whether the hierarchy over all five roles agrees with the definition.
fn agrees_with_the_definition(alloc: Global) -> Result<bool, NoMemory> {
    let Some(normal) = normal_of(alloc)? else {
        return Ok(false);
    };
    match hier_of(alloc, &normal, &[10, 11, 12, 13, 14])? {
        Some(hier) => agrees(alloc, &hier),
        None => Ok(false),
    }
}

/// Whether there is no hierarchy over all roles but the last.
fn wants_all_roles(alloc: Global) -> Result<bool, NoMemory> {
    let Some(normal) = normal_of(alloc)? else {
        return Ok(false);
    };
    Ok(hier_of(alloc, &normal, &[10, 11, 12, 13])?.is_none())
}

#[test]
fn hierarchies_agree_with_the_definition(rt: HostRuntime) {
    assert!(rt; matches!(agrees_with_the_definition(rt.alloc()), Ok(true)));
    assert!(rt; MAX_PREDICATES == 4096);
    assert!(rt; matches!(wants_all_roles(rt.alloc()), Ok(true)));
}
