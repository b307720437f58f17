// What holds at the elements of a finite interpretation.
ghost use Rattle.std.specs.Prelude.{◌↔◌, All, IsTrue};
ghost use Rattle.std.specs.List.{Contains};
ghost use Rattle.dl_terms.specs.declared.axiom.Part.TheVariants.{Fill};
ghost use Rattle.dl_terms.specs.declared.role.Basic.TheVariants.{SomeOf};
ghost use Rattle.dl_models.specs.Meaning.{BaseLinks, RoleLinks, IsInBasic, IsInPart};
ghost use Rattle.dl_models.specs.Structures.{finite};

use crate::Interp;
use dl_terms::{Base, Basic, Part, Role};

/// Whether an element is in a class.
pub(crate) fn is_in(model: &Interp, class: u32, x: u32) -> bool
    ensures { IsTrue result ↔ Contains model.now.classes (class, x) }
{
    model.classes.as_slice().contains(&(class, x))
}

/// Whether an object property links two elements.
pub(crate) fn is_link(model: &Interp, role: u32, x: u32, y: u32) -> bool
    ensures { IsTrue result ↔ Contains model.now.links (role, x, y) }
{
    model.links.as_slice().contains(&(role, x, y))
}

/// Whether a role name links two elements.
fn base_links(model: &Interp, base: Base, x: u32, y: u32) -> bool
    ensures { IsTrue result ↔ BaseLinks (finite model.now) base x y }
{
    match base {
        Base::Named(name) => is_link(model, name, x, y),
        Base::Auxiliary {
            role,
            inverse: false,
            class,
        } => is_link(model, role, x, y) && is_in(model, class, y),
        Base::Auxiliary {
            role,
            inverse: true,
            class,
        } => is_link(model, role, y, x) && is_in(model, class, y),
    }
}

/// Whether a role links two elements.
pub(crate) fn role_links(model: &Interp, role: Role, x: u32, y: u32) -> bool
    ensures { IsTrue result ↔ RoleLinks (finite model.now) role x y }
{
    if role.inverse {
        base_links(model, role.base, y, x)
    } else {
        base_links(model, role.base, x, y)
    }
}

/// Whether an element has a neighbour by a role.
fn has_neighbour(model: &Interp, role: Role, x: u32) -> bool
    ensures { IsTrue result ↔ IsInBasic (finite model.now) (SomeOf role) x }
{
    for y in 0..model.size {
        if role_links(model, role, x, y) {
            return true;
        }
    }
    false
}

/// Whether a role links two elements, of which the second is in a class.
fn links_into(model: &Interp, role: Role, class: u32, x: u32, y: u32) -> bool
    ensures { IsTrue result
        ↔ (RoleLinks (finite model.now) role x y × Contains model.now.classes (class, y)) }
{
    role_links(model, role, x, y) && is_in(model, class, y)
}

/// Whether an element has a neighbour by a role that is in a class.
fn has_neighbour_in(model: &Interp, role: Role, class: u32, x: u32) -> bool
    ensures { IsTrue result ↔ IsInPart (finite model.now) x (Fill role class) }
{
    for y in 0..model.size {
        if links_into(model, role, class, x, y) {
            return true;
        }
    }
    false
}

/// Whether a basic concept has an element.
pub(crate) fn is_in_basic(model: &Interp, basic: Basic, x: u32) -> bool
    ensures { IsTrue result ↔ IsInBasic (finite model.now) basic x }
{
    match basic {
        Basic::Class(class) => is_in(model, class, x),
        Basic::SomeOf(role) => has_neighbour(model, role, x),
    }
}

/// Whether an element is in a part of a right side.
fn is_in_part(model: &Interp, part: Part, x: u32) -> bool
    ensures { IsTrue result ↔ IsInPart (finite model.now) x part }
{
    match part {
        Part::Thing => true,
        Part::Class(class) => is_in(model, class, x),
        Part::Any(role) => has_neighbour(model, role, x),
        Part::Fill(role, class) => has_neighbour_in(model, role, class, x),
        Part::Not(basic) => !is_in_basic(model, basic, x),
    }
}

/// Whether an element is in each part.
pub(crate) fn is_in_parts(model: &Interp, parts: &[Part], x: u32) -> bool
    ensures { IsTrue result ↔ All (IsInPart (finite model.now) x) parts.now }
{
    for part in parts {
        if !is_in_part(model, *part, x) {
            return false;
        }
    }
    true
}
