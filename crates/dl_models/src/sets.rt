// Inclusion and disjointness of basic concepts, as sets of a finite interpretation.
ghost use Rattle.std.specs.Prelude.{◌↔◌, All, IsTrue};
ghost use Rattle.dl_terms.specs.declared.axiom.Axiom.TheVariants.{SubClass, Irreflexive};
ghost use Rattle.dl_models.specs.Meaning.{RoleLinks, IsInBasic, IsInPart, IsWithin, IsApart, Accepts};
ghost use Rattle.dl_models.specs.Structures.{finite};

use crate::Interp;
use crate::elements::{is_in_basic, is_in_parts, role_links};
use dl_terms::{Basic, Part, Role};

/// Whether an element of a basic concept, or another element, is in each part.
fn parts_follow(model: &Interp, basic: Basic, parts: &[Part], x: u32) -> bool
    ensures { IsTrue result
        ↔ (IsInBasic (finite model.now) basic x → All (IsInPart (finite model.now) x) parts.now) }
{
    !is_in_basic(model, basic, x) || is_in_parts(model, parts, x)
}

/// Whether each element of a basic concept is in each part.
pub(crate) fn is_within_parts(model: &Interp, basic: Basic, parts: &[Part]) -> bool
    ensures { IsTrue result ↔ Accepts (finite model.now) (SubClass basic parts.now) }
{
    for x in 0..model.size {
        if !parts_follow(model, basic, parts, x) {
            return false;
        }
    }
    true
}

/// Whether an element of a basic concept, or another element, is in a second one.
fn follows(model: &Interp, one: Basic, two: Basic, x: u32) -> bool
    ensures { IsTrue result ↔ (IsInBasic (finite model.now) one x → IsInBasic (finite model.now) two x) }
{
    !is_in_basic(model, one, x) || is_in_basic(model, two, x)
}

/// Whether each element of a basic concept is in a second one.
pub(crate) fn is_within(model: &Interp, one: Basic, two: Basic) -> bool
    ensures { IsTrue result ↔ IsWithin (finite model.now) one two }
{
    for x in 0..model.size {
        if !follows(model, one, two, x) {
            return false;
        }
    }
    true
}

/// Whether an element isn't in two basic concepts.
fn is_not_both(model: &Interp, one: Basic, two: Basic, x: u32) -> bool
    ensures { IsTrue result ↔ (IsInBasic (finite model.now) one x → ¬ IsInBasic (finite model.now) two x) }
{
    !is_in_basic(model, one, x) || !is_in_basic(model, two, x)
}

/// Whether two basic concepts share no element.
pub(crate) fn is_apart(model: &Interp, one: Basic, two: Basic) -> bool
    ensures { IsTrue result ↔ IsApart (finite model.now) one two }
{
    for x in 0..model.size {
        if !is_not_both(model, one, two, x) {
            return false;
        }
    }
    true
}

/// Whether a role links no element to itself.
pub(crate) fn is_irreflexive(model: &Interp, role: Role) -> bool
    ensures { IsTrue result ↔ Accepts (finite model.now) (Irreflexive role) }
{
    for x in 0..model.size {
        if role_links(model, role, x, x) {
            return false;
        }
    }
    true
}
