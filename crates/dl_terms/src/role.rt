ghost use Rattle.std.specs.Prelude.{◌≡◌};
ghost use Rattle.dl_terms.specs.Roles.{named, inverse_of};

use crate::List;

/// A role name: one of the input, or the auxiliary role of a role and a class: a role below that role, which leads to
/// members of that class alone. Auxiliary roles are this project's own.
#[derive(Clone, Copy, PartialEq, Eq, PartialOrd, Ord)]
pub enum Base {
    /// An object property, by its number.
    Named(u32),
    /// The auxiliary role of the role `role`, or of its inverse, and of the class `class`.
    Auxiliary {
        role: u32,
        inverse: bool,
        class: u32,
    },
}

/// A role of DL-Lite_R: a role name, or the inverse of one.
#[derive(Clone, Copy, PartialEq, Eq, PartialOrd, Ord)]
pub struct Role {
    pub base: Base,
    pub inverse: bool,
}

impl Role {
    /// An object property, by its number, as a role. It takes no memory.
    pub fn named(property: u32) -> Role
        ensures { result ≡ named property }
    {
        Role {
            base: Base::Named(property),
            inverse: false,
        }
    }

    /// The inverse of the role; that of an inverse is the role itself. It takes no memory.
    pub fn inverse(self) -> Role
        ensures { result ≡ inverse_of self }
    {
        Role {
            base: self.base,
            inverse: !self.inverse,
        }
    }
}

/// A basic concept of DL-Lite_R: a class, or what has a neighbour by a role.
#[derive(Clone, Copy, PartialEq, Eq, PartialOrd, Ord)]
pub enum Basic {
    Class(u32),
    SomeOf(Role),
}

/// What no model has: an element in two basic concepts, a pair in two roles, or a loop of a role.
#[derive(Clone, Copy, PartialEq, Eq)]
pub enum Negative {
    Basics(Basic, Basic),
    Roles(Role, Role),
    NoLoop(Role),
}

/// The normal form of a list of axioms: inclusions of roles, inclusions of basic concepts, and negatives. Each
/// negative is beside the index of its axiom in the list, from 0.
#[derive(Drop, PartialEq, Eq)]
pub struct Normal {
    pub roles: List<(Role, Role)>,
    pub concepts: List<(Basic, Basic)>,
    pub negatives: List<(u32, Negative)>,
}
