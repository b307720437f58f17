// Roles made of roles.
ghost use Rattle.std.specs.Prelude.{◌≡◌};
ghost use Rattle.dl_terms.specs.Roles.{auxiliary_of};

use dl_terms::{Base, Role};

/// The auxiliary role of a role and a class. That of an auxiliary role's role, which no axiom has, is that auxiliary
/// role itself.
pub(crate) fn auxiliary_of(role: Role, class: u32) -> Role
    ensures { result ≡ auxiliary_of role class }
{
    let base = match role.base {
        Base::Named(name) => Base::Auxiliary {
            role: name,
            inverse: role.inverse,
            class,
        },
        Base::Auxiliary { .. } => role.base,
    };
    Role {
        base,
        inverse: false,
    }
}
