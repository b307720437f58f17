// The order of the variables: connected to those before, the smallest list first, those of the head first, the long
// lists not turned, ties by number.
ghost use Rattle.std.specs.Prelude.{◌≡◌, ℕ, ◌<◌, ◌↔◌, length, IfOk, OnOk, IsTrue};
ghost use Rattle.std.specs.List.{Any, Contains};
ghost use Rattle.dl_join.specs.Probing.{OrdersAll, AddsVariables, is_first};

use crate::need::Need;
use crate::safe::is_variable;
use dl_terms::{Pair, Term};
use std::alloc::{AllocError, Global};

/// How many bits the lists of an existential variable count more: it comes before one of the head where they are
/// shorter than a sixteenth.
const EXISTENTIAL: u32 = 4;

/// The variables of needs in the order of the search: of those that a need joins with one before, or of all where
/// there is none, those whose smallest list is the smallest (lengths with the same power of two below them are
/// alike, and those of an existential variable count sixteenfold), of these one of the head where there is one, of
/// these one that is first in the longest list that joins it, so that this isn't turned, and of these the one with the
/// least number. Existential variables that no need joins with another one come last, since only whether they have a
/// name is asked.
pub fn order_of(alloc: Global, needs: &[Need<'_>], head: &[Term]) -> Result<Vec<u8>, AllocError>
    ensures { IfOk result (λ order. OrdersAll order.items needs.now) }
{
    let mut waiting = variables_of(alloc, needs)?;
    let mut order = Vec::new(alloc);
    while !waiting.is_empty() {
        let place = place_of_next(needs, head, order.as_slice(), waiting.as_slice());
        let var = waiting.swap_remove(place);
        add(&mut order, var)?;
    }
    Ok(order)
}

/// Adds a variable that isn't there yet.
fn add(order: &mut Vec<u8>, var: u8) -> Result<(), AllocError>
    ensures there { OnOk result (Contains order.new.items var) }
    ensures kept { OnOk result ((v : ℕ) → Contains order.old.items v → Contains order.new.items v) }
{
    if has(order.as_slice(), var) {
        return Ok(());
    }
    order.push(var)?;
    Ok(())
}

fn has(vars: &[u8], var: u8) -> bool
    ensures { IsTrue result → Contains vars.now var }
{
    for v in vars {
        if *v == var {
            return true;
        }
    }
    false
}

/// The variables of needs, as often as they stand there.
fn variables_of(alloc: Global, needs: &[Need<'_>]) -> Result<Vec<u8>, AllocError>
    ensures { IfOk result (λ vars. OrdersAll vars.items needs.now) }
{
    let mut vars = Vec::new(alloc);
    for need in needs {
        push_variables(&mut vars, need)?;
    }
    Ok(vars)
}

fn push_variables(vars: &mut Vec<u8>, need: &Need<'_>) -> Result<(), AllocError>
    ensures { OnOk result (AddsVariables need.now vars.old.items vars.new.items) }
{
    vars.push(need.at)?;
    if let Some(other) = need.other {
        vars.push(other)?;
    }
    Ok(())
}

/// Where the variable stands that comes next.
fn place_of_next(needs: &[Need<'_>], head: &[Term], before: &[u8], waiting: &[u8]) -> usize
    requires { 0 < length waiting.now }
    ensures { result < length waiting.now }
{
    let mut place = 0;
    let mut least = rank(needs, head, before, waiting[0]);
    for (i, var) in waiting.iter().enumerate() {
        let other = rank(needs, head, before, *var);
        if other < least {
            place = i;
            least = other;
        }
    }
    place
}

/// What is smaller comes first: whether no need joins the variable with one before, whether it is existential and none
/// joins it with any other, the size of its smallest list (that of an existential one sixteenfold), whether it isn't in
/// the head, whether it is second in the longest list that joins it, and its number.
fn rank(
    needs: &[Need<'_>],
    head: &[Term],
    before: &[u8],
    var: u8,
) -> (bool, bool, u32, bool, bool, u8) {
    let existential = !names(head, var);
    let mut apart = true;
    let mut alone = existential;
    let mut size = u32::MAX;
    let mut longest = 0;
    let mut second = false;
    for need in needs {
        let neighbour = if need.at == var {
            need.other
        } else if need.other == Some(var) {
            Some(need.at)
        } else {
            continue;
        };
        let own = bits(need.pairs);
        size = size.min(own);
        if let Some(other) = neighbour {
            alone = false;
            apart &= !has(before, other);
            if own > longest {
                longest = own;
                second = need.at != var;
            }
        }
    }
    if existential {
        size = size.saturating_add(EXISTENTIAL);
    }
    (apart, alone, size, existential, second, var)
}

/// How many bits the length of a list has.
fn bits(pairs: &[Pair]) -> u32 {
    64u32.saturating_sub((pairs.len() as u64).leading_zeros())
}

/// True where a head has a variable.
pub fn names(head: &[Term], var: u8) -> bool
    ensures { IsTrue result ↔ Any (λ t. t ≡ Term.Var var) head.now }
{
    for term in head {
        if is_variable(*term, var) {
            return true;
        }
    }
    false
}

/// True where, of two variables, an order has the first one first.
pub fn is_before(order: &[u8], one: u8, two: u8) -> bool
    ensures { result ≡ is_first order.now one two }
{
    for var in order {
        if *var == one {
            return true;
        }
        if *var == two {
            return false;
        }
    }
    false
}
