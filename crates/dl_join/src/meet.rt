// The names that several needs allow for one variable, in order, each found by seeking in sorted pairs.
ghost use Rattle.std.specs.Prelude.{◌≡◌, ◌≢◌, ℕ, ◌<◌, ◌≤◌, ◌^◌, ◌++◌, [], length, IfSome, IfNone, OnOk, filter, ◌==◌, not};
ghost use Rattle.std.specs.List.{All};
ghost use Rattle.dl_join.specs.Needs.{IsAscending, Allows, Stands, AreMoved, AddsNarrowed};

use crate::need::{Column, Need, moved, name_in, passed};
use std::alloc::AllocError;

/// Moves each need to the first name that is at least the bound, which rises to that name.
/// None where a need has no such name.
fn raise(needs: &mut [Need<'_>], from: u64) -> Option<u64>
    requires { All IsAscending needs.old }
    ensures count { length needs.new ≡ length needs.old }
    ensures reached { IfSome result (λ name. from ≤ name) }
    ensures small { IfSome result (λ name. 0 < length needs.old → name < 2 ^ 32) }
    ensures moved { IfSome result (λ name. AreMoved name needs.old needs.new) }
    ensures stand { IfSome result (λ name. All (Stands from name) needs.new) }
    ensures least { IfSome result (λ name. (x : ℕ) → from ≤ x → All (Allows x) needs.old → name ≤ x) }
    ensures none { IfNone result ((x : ℕ) → from ≤ x → All (Allows x) needs.old → ⊥) }
{
    let mut bound = from;
    for need in needs.iter_mut() {
        *need = moved(*need, bound);
        let Some(pair) = need.pairs.first() else {
            return None;
        };
        bound = u64::from(name_in(*pair, need.column));
    }
    Some(bound)
}

/// The least name, from a number on, that each need allows for its variable. The needs are moved to it.
pub fn meet(needs: &mut [Need<'_>], from: u64) -> Option<u32>
    requires ascending { All IsAscending needs.old }
    requires some { 0 < length needs.old }
    ensures reached { IfSome result (λ name. from ≤ name) }
    ensures moved { IfSome result (λ name. AreMoved name needs.old needs.new) }
    ensures stand { IfSome result (λ name. All (Stands name name) needs.new) }
    ensures least { IfSome result (λ name. (x : ℕ) → from ≤ x → All (Allows x) needs.old → name ≤ x) }
    ensures none { IfNone result ((x : ℕ) → from ≤ x → All (Allows x) needs.old → ⊥) }
{
    let mut bound = from;
    while let Some(reached) = raise(needs, bound) {
        if reached == bound {
            return Some(reached as u32);
        }
        bound = reached;
    }
    None
}

/// Adds what the needs ask of other variables, where they stand at a name for theirs.
pub fn narrow<'a>(
    needs: &[Need<'a>],
    name: u32,
    narrowed: &mut Vec<Need<'a>>,
) -> Result<(), AllocError>
    requires { All (Stands name name) needs.now }
    ensures { OnOk result (AddsNarrowed name needs.now narrowed.old.items narrowed.new.items) }
{
    for need in needs {
        if let Some(other) = need.other {
            let run = passed(need.pairs, need.column, u64::from(name) + 1);
            narrowed.push(Need {
                at: other,
                other: None,
                column: Column::Second,
                pairs: &need.pairs[..run],
            })?;
        }
    }
    Ok(())
}

/// Divides needs into those of a variable and the others.
pub fn divide<'a>(
    needs: &[Need<'a>],
    var: u8,
    active: &mut Vec<Need<'a>>,
    later: &mut Vec<Need<'a>>,
) -> Result<(), AllocError>
    requires active { active.old.items ≡ [] }
    requires later { later.old.items ≡ [] }
    ensures active { OnOk result (active.new.items ≡ filter (λ n. n.at == var) needs.now) }
    ensures later { OnOk result (later.new.items ≡ filter (λ n. not (n.at == var)) needs.now) }
{
    for need in needs {
        if need.at == var {
            active.push(*need)?;
        } else {
            later.push(*need)?;
        }
    }
    Ok(())
}
