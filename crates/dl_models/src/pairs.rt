// Inclusion and disjointness of roles, as sets of pairs of a finite interpretation.
ghost use Rattle.std.specs.Prelude.{ℕ, ◌<◌, ◌↔◌, IsTrue};
ghost use Rattle.dl_models.specs.Meaning.{RoleLinks, RoleIsWithin, RoleIsApart};
ghost use Rattle.dl_models.specs.Structures.{finite};

use crate::Interp;
use crate::elements::role_links;
use dl_terms::Role;

/// Whether a second role links two elements, where the first one does.
fn link_follows(model: &Interp, one: Role, two: Role, x: u32, y: u32) -> bool
    ensures { IsTrue result
        ↔ (RoleLinks (finite model.now) one x y → RoleLinks (finite model.now) two x y) }
{
    !role_links(model, one, x, y) || role_links(model, two, x, y)
}

/// Whether each neighbour of an element by a role is one by a second role.
fn links_follow(model: &Interp, one: Role, two: Role, x: u32) -> bool
    ensures { IsTrue result ↔ ((y : ℕ) → y < model.now.size
        → RoleLinks (finite model.now) one x y → RoleLinks (finite model.now) two x y) }
{
    for y in 0..model.size {
        if !link_follows(model, one, two, x, y) {
            return false;
        }
    }
    true
}

/// Whether each pair of a role is one of a second role.
pub(crate) fn role_is_within(model: &Interp, one: Role, two: Role) -> bool
    ensures { IsTrue result ↔ RoleIsWithin (finite model.now) one two }
{
    for x in 0..model.size {
        if !links_follow(model, one, two, x) {
            return false;
        }
    }
    true
}

/// Whether two roles don't both link two elements.
fn link_is_not_both(model: &Interp, one: Role, two: Role, x: u32, y: u32) -> bool
    ensures { IsTrue result
        ↔ (RoleLinks (finite model.now) one x y → ¬ RoleLinks (finite model.now) two x y) }
{
    !role_links(model, one, x, y) || !role_links(model, two, x, y)
}

/// Whether no neighbour of an element by a role is one by a second role.
fn links_are_apart(model: &Interp, one: Role, two: Role, x: u32) -> bool
    ensures { IsTrue result ↔ ((y : ℕ) → y < model.now.size
        → RoleLinks (finite model.now) one x y → ¬ RoleLinks (finite model.now) two x y) }
{
    for y in 0..model.size {
        if !link_is_not_both(model, one, two, x, y) {
            return false;
        }
    }
    true
}

/// Whether two roles share no pair.
pub(crate) fn role_is_apart(model: &Interp, one: Role, two: Role) -> bool
    ensures { IsTrue result ↔ RoleIsApart (finite model.now) one two }
{
    for x in 0..model.size {
        if !links_are_apart(model, one, two, x) {
            return false;
        }
    }
    true
}
