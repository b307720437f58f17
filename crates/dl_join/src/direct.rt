// Needs whose tuples or names stand in one list, so that nothing is searched.
ghost use Rattle.std.specs.Prelude.{◌≡◌, IsTrue};
ghost use Rattle.dl_join.specs.Leaves.{IsLone, IsLast};
ghost use Rattle.dl_join.specs.Direct.{IsDirect, variables_of, other_variable};

use crate::need::Need;
use crate::safe::is_variable;
use dl_terms::Term;

/// True where there is one need, and the head is its variables, in the order of its columns.
pub fn is_direct(needs: &[Need<'_>], head: &[Term]) -> bool
    ensures { IsTrue result → IsDirect needs.now head.now }
{
    if needs.len() != 1 {
        return false;
    }
    is_head_of(&needs[0], head)
}

fn is_head_of(need: &Need<'_>, head: &[Term]) -> bool
    ensures { IsTrue result → head.now ≡ variables_of need.now }
{
    let Some((first, others)) = head.split_first() else {
        return false;
    };
    if !is_variable(*first, need.at) {
        return false;
    }
    is_other(need, others)
}

fn is_other(need: &Need<'_>, others: &[Term]) -> bool
    ensures { IsTrue result → others.now ≡ other_variable need.now.other }
{
    let Some(other) = need.other else {
        return others.is_empty();
    };
    if others.len() != 1 {
        return false;
    }
    is_variable(others[0], other)
}

/// True where there is one need, and it has a variable first, and another one.
pub fn is_lone(needs: &[Need<'_>], var: u8) -> bool
    ensures { IsTrue result → IsLone var needs.now }
{
    if needs.len() != 1 {
        return false;
    }
    let need = needs[0];
    if need.at != var {
        return false;
    }
    need.other.is_some()
}

/// True where there is one need, and it has a variable second.
pub fn is_last(needs: &[Need<'_>], var: u8) -> bool
    ensures { IsTrue result → IsLast var needs.now }
{
    if needs.len() != 1 {
        return false;
    }
    let need = needs[0];
    match need.other {
        Some(other) => other == var,
        None => false,
    }
}
