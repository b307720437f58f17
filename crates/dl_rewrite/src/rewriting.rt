ghost use Rattle.std.specs.Prelude.{◌≡◌, ℕ, ◌<◌, ◌≤◌, ◌^◌, ◌↔◌, List as Items, All, length, IfOk};
ghost use Rattle.dl_terms.specs.Answers.{IsCertain};
ghost use Rattle.dl_terms.specs.Queries.{IsWellFormed, existential_variables};
ghost use Rattle.dl_terms.specs.declared.axiom.Axiom.{Axiom};
ghost use Rattle.dl_terms.specs.declared.axiom.Fact.{Fact};
ghost use Rattle.dl_terms.specs.declared.role.Role.{Role};
ghost use Rattle.dl_hier.specs.Predicates.{roles};
ghost use Rattle.dl_hier.specs.Hierarchy.{IsHierarchyOf};
ghost use Rattle.dl_tree.specs.Table.{IsTableOf};
ghost use Rattle.dl_tree.specs.Masks.{AreLinkMasks};
ghost use Rattle.dl_rewrite.specs.OverNames.{SomeHasOverNames};
ghost use Rattle.dl_rewrite.specs.Known.{HasRolesOf, LinksAreKnown};
ghost use Rattle.dl_rewrite.specs.Shape.{IsShapedFor};
ghost use Rattle.dl_rewrite.specs.Rewriting.{IsRewriting};

use crate::disjunct::disjunct_of;
use dl_hier::Hier;
use dl_terms::{Disjunct, List, NoMemory, Query};
use dl_tree::{TreeTable, existential_variables, link_bits};
use std::alloc::Global;

/// The rewriting of a query over a hierarchy: disjuncts over names that together have exactly the certain answers,
/// whatever the facts over the signature (Kikot, Kontchakov, Zakharyaschev 2012; that there is a disjunct for each set
/// of existential variables whose parts fold is this project's own). A set makes none where one of its parts folds
/// into no tree, or where two different names would have to be one. Fails only for want of memory.
pub fn rewrite(alloc: Global, hier: &Hier, query: &Query) -> Result<List<Disjunct>, NoMemory>
    requires { IsWellFormed query.now }
    ensures exact { IfOk result (λ disjuncts. (axioms : Items Axiom) → IsHierarchyOf hier.now axioms →
        HasRolesOf axioms (roles hier.now.predicates) → (facts : Items Fact) →
        LinksAreKnown facts (roles hier.now.predicates) → (tuple : Items ℕ) →
        IsCertain axioms facts query.now tuple ↔ SomeHasOverNames axioms facts disjuncts tuple) }
    ensures few { IfOk result (λ disjuncts. length disjuncts ≤ 256) }
    ensures shaped { IfOk result (All (IsShapedFor query.now)) }
{
    let table = TreeTable::build(alloc, hier, query)?;
    let variables = existential_variables(alloc, query)?;
    let links = link_bits(alloc, &variables, query.atoms.as_slice())?;
    disjuncts(alloc, &table, query, &variables, &links)
}

/// A disjunct for each set of existential variables that has one.
fn disjuncts(
    alloc: Global,
    table: &TreeTable,
    query: &Query,
    variables: &[u8],
    links: &[(u8, u8)],
) -> Result<List<Disjunct>, NoMemory>
    requires query { IsWellFormed query.now }
    requires variables { variables.now ≡ existential_variables query.now }
    requires masks { AreLinkMasks query.now variables.now links.now }
    ensures rewriting { IfOk result (λ found. (axioms : Items Axiom) (roles : Items Role) →
        IsTableOf axioms roles query.now table.now → IsRewriting axioms roles query.now found) }
    ensures few { IfOk result (λ found. length found ≤ 256) }
    ensures shaped { IfOk result (All (IsShapedFor query.now)) }
{
    let mut found = List::new(alloc);
    for set in 0..set_count(variables.len()) {
        if let Some(disjunct) = disjunct_of(alloc, table, query, variables, links, set as u8)? {
            found.push(disjunct)?;
        }
    }
    Ok(found)
}

/// How many sets so many variables have.
fn set_count(count: usize) -> u32
    requires { count ≤ 8 }
    ensures { result ≡ 2 ^ count }
{
    let mut sets = 1u32;
    for _ in 0..count {
        sets *= 2;
    }
    sets
}
