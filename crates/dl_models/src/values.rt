// Values that the variables of a query have, as pairs of a variable and an element.
ghost use Rattle.std.specs.Prelude.{◌≡◌, length, All, IfOk};
ghost use Rattle.dl_models.specs.Meaning.{StandsFor, GivesHead};
ghost use Rattle.dl_models.specs.Structures.{finite};
ghost use Rattle.dl_models.specs.Values.{CanAgree, AddsOrNot};

use crate::Interp;
use crate::facts::{is_named, look_up};
use dl_terms::{NoMemory, Term};

/// Gives a term an element, or answers that it can't have that one beside the values given.
fn bind(model: &Interp, values: &mut Vec<(u32, u32)>, term: Term, x: u32) -> Result<bool, NoMemory>
    requires { CanAgree values.old.items }
    ensures { IfOk result (AddsOrNot (λ m. StandsFor (finite model.now) m term x)
        values.old.items values.new.items) }
{
    match term {
        Term::Name(name) => Ok(is_named(model, name, x)),
        Term::Var(variable) => bind_variable(values, u32::from(variable), x),
    }
}

/// Gives a variable an element, or answers that it has another one.
fn bind_variable(values: &mut Vec<(u32, u32)>, variable: u32, x: u32) -> Result<bool, NoMemory>
    requires { CanAgree values.old.items }
    ensures { IfOk result (AddsOrNot (λ m. m variable ≡ x) values.old.items values.new.items) }
{
    if let Some(known) = look_up(values.as_slice(), variable) {
        return Ok(known == x);
    }
    let Ok(()) = values.push((variable, x)) else {
        return Err(NoMemory);
    };
    Ok(true)
}

/// Gives each term its element, or answers that they can't have them together.
pub(crate) fn bind_all(
    model: &Interp,
    values: &mut Vec<(u32, u32)>,
    terms: &[(Term, u32)],
) -> Result<bool, NoMemory>
    requires { CanAgree values.old.items }
    ensures { IfOk result (AddsOrNot
        (λ m. All (λ t. StandsFor (finite model.now) m t.0 t.1) terms.now)
        values.old.items values.new.items) }
{
    for (term, x) in terms {
        if !bind(model, values, *term, *x)? {
            return Ok(false);
        }
    }
    Ok(true)
}

/// Gives the variables of a head the elements of a tuple of names, or answers that they can't have them.
pub(crate) fn bind_head(
    model: &Interp,
    values: &mut Vec<(u32, u32)>,
    head: &[u8],
    tuple: &[u32],
) -> Result<bool, NoMemory>
    requires long { length head.now ≡ length tuple.now }
    requires some { CanAgree values.old.items }
    ensures { IfOk result (AddsOrNot (λ m. GivesHead (finite model.now) m head.now tuple.now)
        values.old.items values.new.items) }
{
    for (i, variable) in head.iter().enumerate() {
        if !bind_name(model, values, u32::from(*variable), tuple[i])? {
            return Ok(false);
        }
    }
    Ok(true)
}

/// Gives a variable the element of a name, or answers that it can't have it.
fn bind_name(
    model: &Interp,
    values: &mut Vec<(u32, u32)>,
    variable: u32,
    name: u32,
) -> Result<bool, NoMemory>
    requires { CanAgree values.old.items }
    ensures { IfOk result (AddsOrNot (λ m. (finite model.now).Denotes name (m variable))
        values.old.items values.new.items) }
{
    let Some(x) = look_up(model.names.as_slice(), name) else {
        return Ok(false);
    };
    bind_variable(values, variable, x)
}
