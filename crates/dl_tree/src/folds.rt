// The row of a set of variables: the roles into whose trees it folds, and those below which it does.
ghost use Rattle.std.specs.Prelude.{◌≡◌, ℕ, ◌<◌, ◌≤◌, ◌^◌, true, [], length, List as Items, IfOk, MatchOption, bit_and, slice_index_or};
ghost use Rattle.std.specs.List.{flat_map};
ghost use Rattle.dl_terms.specs.Queries.{IsWellFormed, existential_variables};
ghost use Rattle.dl_terms.specs.declared.axiom.Axiom.{Axiom};
ghost use Rattle.dl_terms.specs.declared.query.Query.{Query as Asked};
ghost use Rattle.dl_hier.specs.Predicates.{roles};
ghost use Rattle.dl_hier.specs.Hierarchy.{Hierarchy, IsHierarchyOf};
ghost use Rattle.dl_tree.specs.Sets.{IsConnected};
ghost use Rattle.dl_tree.specs.Masks.{set_of};
ghost use Rattle.dl_tree.specs.Tests.{column};
ghost use Rattle.dl_tree.specs.Rows.{TellsRow};
ghost use Rattle.dl_tree.specs.Table.{IsRowOf, IsTableOf};
ghost use Rattle.dl_tree.specs.declared.atoms.AtomRows.{AtomRows as Rows};
ghost use Rattle.dl_tree.specs.Plans.{IsNext, FoldsAt, FoldsBelowAt, IsFoldRow};

use crate::atoms::{AtomRows, bases, row_at, tops};
use crate::bits::{copied, full, meet};
use crate::masks::{has_neighbour, is_connected, part_of};
use crate::rows::{followed, led, picked};
use dl_hier::Hier;
use dl_terms::{List, NoMemory, Query, Role};
use std::alloc::Global;

/// The bits of the roles into whose trees a set folds, or none where the set isn't connected.
pub(crate) fn fold_row(
    alloc: Global,
    hier: &Hier,
    links: &[(u8, u8)],
    atoms: &[AtomRows],
    below: &[List<u64>],
    s: u8,
) -> Result<Option<List<u64>>, NoMemory>
    ensures { IfOk result (λ row. (axioms : Items Axiom) (q : Asked) →
        IsNext hier.now axioms q links.now atoms.now below.now s → MatchOption row
        (IsConnected q (set_of (existential_variables q) s) → ⊥)
        (IsFoldRow axioms q (roles hier.now.predicates) s)) }
{
    if is_connected(links, s) {
        return Ok(Some(connected_row(alloc, hier, links, atoms, below, s)?));
    }
    Ok(None)
}

/// The same of a connected set. Where no term outside shares a role atom with a member, its tree may be entered from
/// any depth.
fn connected_row(
    alloc: Global,
    hier: &Hier,
    links: &[(u8, u8)],
    atoms: &[AtomRows],
    below: &[List<u64>],
    s: u8,
) -> Result<List<u64>, NoMemory>
    ensures { IfOk result (λ row. (axioms : Items Axiom) (q : Asked) →
        IsNext hier.now axioms q links.now atoms.now below.now s →
        IsConnected q (set_of (existential_variables q) s) →
        IsFoldRow axioms q (roles hier.now.predicates) s row) }
{
    let tops = tops(alloc, links, s)?;
    let row = bases(alloc, atoms, below, hier.roles().len(), s, &tops)?;
    if has_neighbour(links, s) {
        return Ok(row);
    }
    led(alloc, hier, row.as_slice())
}

/// The bits of the roles below which a set folds.
pub(crate) fn below_row(
    alloc: Global,
    hier: &Hier,
    links: &[(u8, u8)],
    below: &[List<u64>],
    s: u8,
    row: &Option<List<u64>>,
) -> Result<List<u64>, NoMemory>
    ensures { IfOk result (λ found. (axioms : Items Axiom) (q : Asked) (atoms : Items Rows) →
        IsNext hier.now axioms q links.now atoms below.now s → MatchOption row.now
        (IsConnected q (set_of (existential_variables q) s) → ⊥)
        (IsFoldRow axioms q (roles hier.now.predicates) s) →
        TellsRow (length (roles hier.now.predicates))
        (FoldsBelowAt axioms q (roles hier.now.predicates) s) found) }
{
    match row {
        Some(bits) => followed(alloc, hier, bits.as_slice()),
        None => below_parts(alloc, hier.roles().len(), links, below, s),
    }
}

/// The same of a set that isn't connected: its parts fold below them.
fn below_parts(
    alloc: Global,
    places: usize,
    links: &[(u8, u8)],
    below: &[List<u64>],
    s: u8,
) -> Result<List<u64>, NoMemory>
    ensures { IfOk result (λ found. (h : Hierarchy) (axioms : Items Axiom) (q : Asked)
        (atoms : Items Rows) → places ≡ length (roles h.predicates) →
        IsNext h axioms q links.now atoms below.now s →
        (IsConnected q (set_of (existential_variables q) s) → ⊥) →
        TellsRow places (FoldsBelowAt axioms q (roles h.predicates) s) found) }
{
    if s == 0 {
        return full(alloc, places);
    }
    let part = part_of(links, s);
    both(alloc, below, places, part as usize, (s & !part) as usize)
}

/// The bits that the rows of two sets both have.
fn both(
    alloc: Global,
    rows: &[List<u64>],
    places: usize,
    one: usize,
    other: usize,
) -> Result<List<u64>, NoMemory>
    ensures { IfOk result (TellsRow places
        (λ i. (column rows.now i one ≡ true) × (column rows.now i other ≡ true))) }
{
    let mut row = copied(alloc, row_at(rows, one), places)?;
    meet(&mut row, row_at(rows, other));
    Ok(List::of(row))
}

/// The roles of which a row has the bit, or none of no row.
pub(crate) fn roles_of(
    alloc: Global,
    hier: &Hier,
    row: &Option<List<u64>>,
) -> Result<List<Role>, NoMemory>
    ensures { IfOk result (λ found. (axioms : Items Axiom) (q : Asked) (links : Items (ℕ × ℕ))
        (atoms : Items Rows) (below : Items (Items ℕ)) (s : ℕ) →
        IsNext hier.now axioms q links atoms below s → MatchOption row.now
        (IsConnected q (set_of (existential_variables q) s) → ⊥)
        (IsFoldRow axioms q (roles hier.now.predicates) s) →
        IsRowOf axioms (roles hier.now.predicates) q s found) }
{
    match row {
        Some(bits) => picked(alloc, hier.roles(), bits.as_slice()),
        None => Ok(List::new(alloc)),
    }
}
