ghost use Rattle.std.specs.Prelude.{◌≡◌, ℕ, ◌+◌, ◌<◌, ◌≤◌, ◌^◌, [], length, List as Items, IfOk, slice_index_or};
ghost use Rattle.dl_terms.specs.Queries.{IsWellFormed, existential_variables};
ghost use Rattle.dl_terms.specs.declared.axiom.Axiom.{Axiom};
ghost use Rattle.dl_terms.specs.declared.query.Query.{Query as Asked};
ghost use Rattle.dl_hier.specs.Predicates.{roles};
ghost use Rattle.dl_hier.specs.Hierarchy.{IsHierarchyOf};
ghost use Rattle.dl_tree.specs.Each.{IsEach};
ghost use Rattle.dl_tree.specs.Rows.{TellsRow};
ghost use Rattle.dl_tree.specs.Table.{IsRowOf, IsTableOf};
ghost use Rattle.dl_tree.specs.Plans.{IsNext, IsRowFor, FoldsBelowAt};

use crate::asked::rows_of_atoms;
use crate::atoms::AtomRows;
use crate::folds::{below_row, fold_row, roles_of};
use crate::variables::{existential_variables, link_bits};
use dl_hier::Hier;
use dl_terms::{List, NoMemory, Query, Role};
use std::alloc::Global;
use std::marker::Model;

/// The table of folds of a query: for each set of its existential variables the roles into whose trees it folds.
#[derive(Drop)]
pub struct TreeTable {
    rows: List<List<Role>>,
}

impl Model for TreeTable {
    ghost use Rattle.std.specs.Prelude.{◌≡◌, List as Items, length};
    ghost use Rattle.dl_terms.specs.declared.role.Role.{Role};

    ghost Value = { Items (Items Role) };

    ghost view = { λ table. table.rows };

    ghost invariant = { λ table. length table.rows ≡ 256 };
}

impl TreeTable {
    /// The table of a query over a hierarchy: a row for each number from 0 to 255, whose bit `i` stands for the i-th
    /// existential variable. A row is exact: ascending, it has the roles of the hierarchy into whose trees the set
    /// folds, with all that shares a role atom with a member, and is no member, at the root (tree witnesses; Kikot,
    /// Kontchakov, Zakharyaschev 2012). It is empty where the set isn't connected, and where a bit stands for no
    /// variable. Fails only for want of memory.
    pub fn build(alloc: Global, hier: &Hier, query: &Query) -> Result<TreeTable, NoMemory>
        requires { IsWellFormed query.now }
        ensures rows { IfOk result (λ table. length table ≡ 256) }
        ensures exact { IfOk result (λ table. (axioms : Items Axiom) → IsHierarchyOf hier.now axioms →
            IsTableOf axioms (roles hier.now.predicates) query.now table) }
    {
        let variables = existential_variables(alloc, query)?;
        let rows = rows_of(alloc, hier, query, &variables)?;
        Ok(TreeTable {
            rows: padded(alloc, rows)?,
        })
    }

    /// The row of a number: the roles into whose trees its set folds, ascending. It takes no memory.
    pub fn roles(&self, set: u8) -> &[Role]
        ensures { result.now ≡ slice_index_or self.now set [] }
    {
        self.rows.as_slice()[set as usize].as_slice()
    }
}

/// The rows of the sets of variables.
fn rows_of(
    alloc: Global,
    hier: &Hier,
    query: &Query,
    variables: &[u8],
) -> Result<List<List<Role>>, NoMemory>
    requires variables { variables.now ≡ existential_variables query.now }
    requires few { length variables.now ≤ 8 }
    ensures few { IfOk result (λ rows. length rows ≤ 256) }
    ensures exact { IfOk result (λ rows. (axioms : Items Axiom) → IsHierarchyOf hier.now axioms →
        IsTableOf axioms (roles hier.now.predicates) query.now rows) }
{
    if variables.is_empty() {
        return Ok(List::new(alloc));
    }
    let asked = query.atoms.as_slice();
    let links = link_bits(alloc, variables, asked)?;
    let atoms = rows_of_atoms(alloc, hier, hier.roles().len(), variables, asked)?;
    rows_to(
        alloc,
        hier,
        &links,
        atoms.as_slice(),
        last_of(variables.len()),
    )
}

/// The rows with empty ones behind them, 256 in all.
fn padded(alloc: Global, rows: List<List<Role>>) -> Result<List<List<Role>>, NoMemory>
    requires { length rows ≤ 256 }
    ensures len { IfOk result (λ all. length all ≡ 256) }
    ensures same { IfOk result (λ all. (k : ℕ) → slice_index_or all k [] ≡ slice_index_or rows k []) }
{
    let mut all = rows;
    while all.len() < 256 {
        all.push(List::new(alloc))?;
    }
    Ok(all)
}

/// The number of the set of so many variables.
fn last_of(count: usize) -> u8
    requires { count ≤ 8 }
    ensures { result + 1 ≡ 2 ^ count }
{
    let mut last = 0u32;
    for _ in 0..count {
        last = 2 * last + 1;
    }
    last as u8
}

/// The rows of the numbers up to a last one.
fn rows_to(
    alloc: Global,
    hier: &Hier,
    links: &[(u8, u8)],
    atoms: &[AtomRows],
    last: u8,
) -> Result<List<List<Role>>, NoMemory>
    ensures { IfOk result (IsEach [] (last + 1) (IsRowFor hier.now links.now atoms.now last)) }
{
    let mut rows = List::new(alloc);
    let mut below = List::new(alloc);
    for s in 0..last {
        let (row, folds_below) = next_rows(alloc, hier, links, atoms, below.as_slice(), s)?;
        rows.push(row)?;
        below.push(folds_below)?;
    }
    rows.push(last_row(alloc, hier, links, atoms, below.as_slice(), last)?)?;
    Ok(rows)
}

/// The row of a number, and for each role whether its set folds below it.
fn next_rows(
    alloc: Global,
    hier: &Hier,
    links: &[(u8, u8)],
    atoms: &[AtomRows],
    below: &[List<u64>],
    s: u8,
) -> Result<(List<Role>, List<u64>), NoMemory>
    ensures { IfOk result (λ p. (axioms : Items Axiom) (q : Asked) →
        IsNext hier.now axioms q links.now atoms.now below.now s →
        IsRowOf axioms (roles hier.now.predicates) q s p.0
        × TellsRow (length (roles hier.now.predicates))
        (FoldsBelowAt axioms q (roles hier.now.predicates) s) p.1) }
{
    let row = fold_row(alloc, hier, links, atoms, below, s)?;
    let found = roles_of(alloc, hier, &row)?;
    Ok((found, below_row(alloc, hier, links, below, s, &row)?))
}

/// The row of a number.
fn last_row(
    alloc: Global,
    hier: &Hier,
    links: &[(u8, u8)],
    atoms: &[AtomRows],
    below: &[List<u64>],
    s: u8,
) -> Result<List<Role>, NoMemory>
    ensures { IfOk result (λ found. (axioms : Items Axiom) (q : Asked) →
        IsNext hier.now axioms q links.now atoms.now below.now s →
        IsRowOf axioms (roles hier.now.predicates) q s found) }
{
    let row = fold_row(alloc, hier, links, atoms, below, s)?;
    roles_of(alloc, hier, &row)
}
