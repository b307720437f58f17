// The places of a graph in depth-first order.
ghost use Rattle.std.specs.Prelude.{◌≡◌, ◌<◌, ◌^◌, ◌++◌, ℕ, List, Option, length, reverse, Contains, IfOk, OnOk, get_or, None};
ghost use Rattle.dl_numbers.specs.DepthFirst.{AreExactly, AreEquivalent, IsLeast, IsDepthFirst};
ghost use Rattle.dl_numbers.specs.Places.{places, Reaches, AreLeaders, AreParents};

use crate::classes::{leaders, parents};
use dl_reach::Closure;
use dl_terms::NoMemory;
use std::alloc::Global;

/// The places of a graph in depth-first order, from those above to those below: the places of a class together, roots
/// and children by their least place, and each class behind its one parent (the order of a semantic index, Rodríguez-Muro
/// and Calvanese). An edge leads from what is below to what is above. It fails only for want of memory. There is no
/// recursion, so a chain may have any length.
pub fn depth_first(alloc: Global, order: &Closure) -> Result<Vec<u32>, NoMemory>
    ensures { IfOk result
        (λ found. IsDepthFirst (places order.now.nodes) (Reaches order.now) found.items) }
{
    let leaders = leaders(alloc, order)?;
    let parents = parents(alloc, order, &leaders)?;
    let mut found = Vec::with_capacity(alloc, order.nodes() as usize)?;
    let mut waiting = Vec::new(alloc);
    push_children(&mut waiting, &leaders, &parents, None)?;
    while let Some(class) = waiting.pop() {
        push_members(&mut found, &leaders, class)?;
        push_children(&mut waiting, &leaders, &parents, Some(class))?;
    }
    Ok(found)
}

/// Puts the places of a class behind others, ascending.
fn push_members(found: &mut Vec<u32>, leaders: &[u32], class: u32) -> Result<(), NoMemory>
    requires { length leaders.now < 2 ^ 32 }
    ensures { OnOk result ((members : List ℕ)
        × AreExactly (places (length leaders.now)) (λ k. get_or leaders.now k 0 ≡ class) members
        × (found.new.items ≡ found.old.items ++ members)) }
{
    for place in 0..leaders.len() as u32 {
        if leaders[place as usize] == class {
            found.push(place)?;
        }
    }
    Ok(())
}

/// Puts the classes with a parent, or without one, on top of those that wait: the first of them comes last.
fn push_children(
    waiting: &mut Vec<u32>,
    leaders: &[u32],
    parents: &[Option<u32>],
    parent: Option<u32>,
) -> Result<(), NoMemory>
    requires few { length leaders.now < 2 ^ 32 }
    requires as_many { length parents.now ≡ length leaders.now }
    ensures { OnOk result ((children : List ℕ)
        × AreExactly (places (length leaders.now))
        (λ k. (get_or leaders.now k 0 ≡ k) × (get_or parents.now k None ≡ parent)) children
        × (waiting.new.items ≡ waiting.old.items ++ reverse children)) }
{
    let mut place = leaders.len() as u32;
    while place > 0 {
        place -= 1;
        if leaders[place as usize] == place && parents[place as usize] == parent {
            waiting.push(place)?;
        }
    }
    Ok(())
}
