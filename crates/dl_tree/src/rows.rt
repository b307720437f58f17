// Which roles are followed by a role of a row, in one step and by chains, and the roles of a row.
ghost use Rattle.std.specs.Prelude.{◌≡◌, ℕ, ◌*◌, ◌<◌, ◌≤◌, ◌⊎◌, false, length, slice_index_or, List as Items, IfOk, MatchOption};
ghost use Rattle.std.specs.List.Sorted.{IsStrictlySortedBy};
ghost use Rattle.dl_terms.specs.Order.{role_cmp};
ghost use Rattle.dl_terms.specs.declared.axiom.Axiom.{Axiom};
ghost use Rattle.dl_hier.specs.Predicates.{roles};
ghost use Rattle.dl_hier.specs.Hierarchy.{IsHierarchyOf};
ghost use Rattle.dl_hier.specs.Picking.{ArePicked};
ghost use Rattle.dl_tree.specs.Below.{MayFollow};
ghost use Rattle.dl_tree.specs.Rows.{role_at, HasBit, TellsRow, IsMarked, LeadsTo, ChainLeadsTo};

use crate::bits::{copied, empty, join, next_bit};
use dl_hier::Hier;
use dl_terms::{Basic, List, NoMemory, Role};
use std::alloc::{AllocError, Global};

/// For each role whether a role of the row may follow it.
pub(crate) fn followed(alloc: Global, hier: &Hier, row: &[u64]) -> Result<List<u64>, NoMemory>
    ensures { IfOk result (λ found. (axioms : Items Axiom) → IsHierarchyOf hier.now axioms →
        TellsRow (length (roles hier.now.predicates))
        (LeadsTo axioms (roles hier.now.predicates) row.now) found) }
{
    let roles = hier.roles();
    let mut found = empty(alloc, roles.len())?;
    let mut start = 0;
    while let Some(i) = next_bit(row, start, roles.len()) {
        add_leading(&mut found, hier, roles[i]);
        start = i + 1;
    }
    Ok(List::of(found))
}

/// Puts the roles that a role may follow to a row.
fn add_leading(row: &mut Vec<u64>, hier: &Hier, to: Role)
    requires { length (roles hier.now.predicates) ≤ 64 * length row.old.items }
    ensures len { length row.new.items ≡ length row.old.items }
    ensures told { (axioms : Items Axiom) → IsHierarchyOf hier.now axioms →
        TellsRow (length (roles hier.now.predicates)) (λ i. HasBit row.old.items i
        ⊎ MayFollow axioms (role_at (roles hier.now.predicates) i) to) row.new.items }
{
    join(row, hier.bits_leading(Basic::SomeOf(to)));
}

/// For each role whether a chain of roles, of which each may follow the one before it, leads to a role of the row.
pub(crate) fn led(alloc: Global, hier: &Hier, row: &[u64]) -> Result<List<u64>, NoMemory>
    ensures { IfOk result (λ found. (axioms : Items Axiom) → IsHierarchyOf hier.now axioms →
        TellsRow (length (roles hier.now.predicates))
        (ChainLeadsTo axioms (roles hier.now.predicates) row.now) found) }
{
    let roles = hier.roles();
    let mut found = copied(alloc, row, roles.len())?;
    let mut done = unmarked(alloc, roles.len())?;
    let mut start = 0;
    while let Some(i) = pending(&found, &done, start) {
        add_leading(&mut found, hier, roles[i]);
        done[i] = true;
        start = i + 1;
    }
    Ok(List::of(found))
}

fn unmarked(alloc: Global, places: usize) -> Result<Vec<bool>, AllocError>
    ensures len { IfOk result (λ marks. length marks.items ≡ places) }
    ensures none { IfOk result (λ marks. (i : ℕ) → slice_index_or marks.items i false ≡ false) }
{
    vec![in alloc; false; places]
}

/// A place with a bit and no mark: the first one from the start on, or else the first one.
fn pending(row: &[u64], done: &[bool], start: usize) -> Option<usize>
    ensures { MatchOption result
        ((i : ℕ) → i < length done.now → HasBit row.now i → IsMarked done.now i)
        (λ i. (i < length done.now) × HasBit row.now i × (slice_index_or done.now i false ≡ false)) }
{
    match pending_from(row, done, start) {
        Some(i) => Some(i),
        None => pending_from(row, done, 0),
    }
}

fn pending_from(row: &[u64], done: &[bool], start: usize) -> Option<usize>
    ensures { MatchOption result
        ((i : ℕ) → start ≤ i → i < length done.now → HasBit row.now i → IsMarked done.now i)
        (λ i. (i < length done.now) × HasBit row.now i × (slice_index_or done.now i false ≡ false)) }
{
    let mut i = start;
    while let Some(k) = next_bit(row, i, done.len()) {
        if !done[k] {
            return Some(k);
        }
        i = k + 1;
    }
    None
}

/// The roles of which a row has the bit.
pub(crate) fn picked(alloc: Global, listed: &[Role], row: &[u64]) -> Result<List<Role>, NoMemory>
    requires ascending { IsStrictlySortedBy role_cmp listed.now }
    ensures { IfOk result (ArePicked role_cmp listed.now (HasBit row.now)) }
{
    let mut found = List::new(alloc);
    let mut start = 0;
    while let Some(i) = next_bit(row, start, listed.len()) {
        found.push(listed[i])?;
        start = i + 1;
    }
    Ok(found)
}
