// Existential variables that needs join with one other variable alone.
ghost use Rattle.std.specs.Prelude.{◌≡◌, filter, not, IsTrue, IfSome, IfOk};
ghost use Rattle.std.specs.List.{All, Contains};
ghost use Rattle.dl_join.specs.Leaves.{IsLeaf, Hangs, KeepsTo, mentions, is_near};
ghost use Rattle.dl_join.specs.Probing.{CanBeFitted};

use crate::need::{Need, again};
use crate::order::names;
use dl_terms::Term;
use std::alloc::{AllocError, Global};

/// A leaf, and the variable that it hangs on. One that a need has second comes first, as no list has to be turned for
/// it.
pub fn leaf_of(needs: &[Need<'_>], head: &[Term]) -> Option<(u8, u8)>
    requires { All CanBeFitted needs.now }
    ensures { IfSome result (λ leaf. IsLeaf leaf.0 leaf.1 needs.now head.now) }
{
    match second_leaf(needs, head) {
        Some(leaf) => Some(leaf),
        None => first_leaf(needs, head),
    }
}

/// A leaf that a need has second, and the variable that it hangs on.
fn second_leaf(needs: &[Need<'_>], head: &[Term]) -> Option<(u8, u8)>
    requires { All CanBeFitted needs.now }
    ensures { IfSome result (λ leaf. IsLeaf leaf.0 leaf.1 needs.now head.now) }
{
    for need in needs {
        if let Some(leaf) = leaf_behind(need, needs, head) {
            return Some(leaf);
        }
    }
    None
}

/// A leaf that a need has first, and the variable that it hangs on.
fn first_leaf(needs: &[Need<'_>], head: &[Term]) -> Option<(u8, u8)>
    requires { All CanBeFitted needs.now }
    ensures { IfSome result (λ leaf. IsLeaf leaf.0 leaf.1 needs.now head.now) }
{
    for need in needs {
        if let Some(leaf) = leaf_ahead(need, needs, head) {
            return Some(leaf);
        }
    }
    None
}

/// The second variable of a need, where it is a leaf, and the one that it hangs on.
fn leaf_behind(need: &Need<'_>, needs: &[Need<'_>], head: &[Term]) -> Option<(u8, u8)>
    requires among { Contains needs.now need.now }
    requires need { CanBeFitted need.now }
    ensures { IfSome result (λ leaf. IsLeaf leaf.0 leaf.1 needs.now head.now) }
{
    let other = need.other?;
    if hangs(needs, head, other, need.at) {
        return Some((other, need.at));
    }
    None
}

/// The first variable of a need, where it is a leaf, and the one that it hangs on.
fn leaf_ahead(need: &Need<'_>, needs: &[Need<'_>], head: &[Term]) -> Option<(u8, u8)>
    requires among { Contains needs.now need.now }
    requires need { CanBeFitted need.now }
    ensures { IfSome result (λ leaf. IsLeaf leaf.0 leaf.1 needs.now head.now) }
{
    let other = need.other?;
    if hangs(needs, head, need.at, other) {
        return Some((need.at, other));
    }
    None
}

/// True where the head lacks a variable, and needs join it with one other variable alone.
fn hangs(needs: &[Need<'_>], head: &[Term], var: u8, to: u8) -> bool
    ensures { IsTrue result → Hangs var to needs.now head.now }
{
    if names(head, var) {
        return false;
    }
    all_keep_to(needs, var, to)
}

fn all_keep_to(needs: &[Need<'_>], var: u8, to: u8) -> bool
    ensures { IsTrue result → All (KeepsTo var to) needs.now }
{
    for need in needs {
        if !keeps_to(need, var, to) {
            return false;
        }
    }
    true
}

fn keeps_to(need: &Need<'_>, var: u8, to: u8) -> bool
    ensures { IsTrue result → KeepsTo var to need.now }
{
    let Some(other) = need.other else {
        return true;
    };
    if need.at == var {
        return other == to;
    }
    if other == var {
        return need.at == to;
    }
    true
}

/// True where a need has a variable.
fn mentions(need: &Need<'_>, var: u8) -> bool
    ensures { result ≡ mentions var need.now }
{
    if need.at == var {
        return true;
    }
    match need.other {
        Some(other) => other == var,
        None => false,
    }
}

/// True where a need has a leaf, or, where this is asked widely, the variable alone that it hangs on.
fn is_near(need: &Need<'_>, wide: bool, leaf: u8, to: u8) -> bool
    ensures { result ≡ is_near wide leaf to need.now }
{
    if mentions(need, leaf) {
        return true;
    }
    if !wide {
        return false;
    }
    if need.at != to {
        return false;
    }
    match need.other {
        Some(_) => false,
        None => true,
    }
}

/// True where one need alone has a variable.
pub fn is_once(needs: &[Need<'_>], var: u8) -> bool {
    let mut found = false;
    for need in needs {
        if mentions(need, var) {
            if found {
                return false;
            }
            found = true;
        }
    }
    found
}

/// The needs of a leaf, and, where they are asked widely, those of the variable alone that it hangs on.
pub fn needs_near<'a>(
    alloc: Global,
    needs: &[Need<'a>],
    wide: bool,
    leaf: u8,
    to: u8,
) -> Result<Vec<Need<'a>>, AllocError>
    ensures { IfOk result (λ near. near.items ≡ filter (λ n. is_near wide leaf to n) needs.now) }
{
    let mut near = Vec::new(alloc);
    for need in needs {
        if is_near(need, wide, leaf, to) {
            near.push(*need)?;
        }
    }
    Ok(near)
}

/// The other needs, for as long as they are lent.
pub fn needs_beyond<'a>(
    alloc: Global,
    needs: &'a [Need<'_>],
    wide: bool,
    leaf: u8,
    to: u8,
) -> Result<Vec<Need<'a>>, AllocError>
    ensures { IfOk result (λ beyond. beyond.items ≡ filter (λ n. not (is_near wide leaf to n)) needs.now) }
{
    let mut beyond = Vec::new(alloc);
    for need in needs {
        if !is_near(need, wide, leaf, to) {
            beyond.push(again(need))?;
        }
    }
    Ok(beyond)
}
