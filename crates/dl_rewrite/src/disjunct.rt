// The disjunct of one set of variables at elements without a name.
ghost use Rattle.std.specs.Prelude.{◌≡◌, ◌==◌, ◌<◌, ◌≤◌, ◌^◌, [], length, map, not, IfOk, MatchOption};
ghost use Rattle.std.specs.Prelude.{List as Items, All, slice_index_or};
ghost use Rattle.std.specs.List.{flat_map, list_all};
ghost use Rattle.dl_terms.specs.Queries.{IsWellFormed, existential_variables};
ghost use Rattle.dl_terms.specs.declared.axiom.Axiom.{Axiom};
ghost use Rattle.dl_terms.specs.declared.role.Role.{Role as R};
ghost use Rattle.dl_terms.specs.declared.role.Basic.TheVariants.{SomeOf as Some_};
ghost use Rattle.dl_terms.specs.declared.query.Probe.TheVariants.{AnyOf as Any_};
ghost use Rattle.dl_tree.specs.Table.{IsTableOf};
ghost use Rattle.dl_tree.specs.Masks.{set_of, AreLinkMasks};
ghost use Rattle.dl_rewrite.specs.Unifiers.{probe_of};
ghost use Rattle.dl_rewrite.specs.Shape.{IsShapedFor};
ghost use Rattle.dl_rewrite.specs.Rewriting.{IsDisjunctFor, HasNoDisjunct};
ghost use Rattle.dl_rewrite.specs.Steps.{term_at, ArePartsOf, pairs_of, AreMostGeneralUnifier, outside_probe, probes_of};

use crate::parts::{member_of, pairs_of, parts_of, touches};
use crate::unify::{put, term_at, unifier};
use dl_terms::{Atom, Basic, Disjunct, List, NoMemory, Probe, Query, Role, Term};
use dl_tree::TreeTable;
use std::alloc::{AllocError, Global};

/// The disjunct of a set of existential variables, or none where a part folds into no tree, or two different names
/// would have to be one.
pub(crate) fn disjunct_of(
    alloc: Global,
    table: &TreeTable,
    query: &Query,
    variables: &[u8],
    links: &[(u8, u8)],
    set: u8,
) -> Result<Option<Disjunct>, NoMemory>
    requires query { IsWellFormed query.now }
    requires variables { variables.now ≡ existential_variables query.now }
    requires masks { AreLinkMasks query.now variables.now links.now }
    requires fits { set < 2 ^ length variables.now }
    ensures { IfOk result (λ found. MatchOption found
        ((axioms : Items Axiom) (roles : Items R) → IsTableOf axioms roles query.now table.now →
        HasNoDisjunct axioms roles query.now (set_of variables.now set))
        (λ d. IsShapedFor query.now d × ((axioms : Items Axiom) (roles : Items R) →
        IsTableOf axioms roles query.now table.now →
        IsDisjunctFor axioms roles query.now (set_of variables.now set) d))) }
{
    let parts = parts_of(alloc, query, variables, links, set)?;
    if !all_fold(table, &parts) {
        return Ok(None);
    }
    let pairs = pairs_of(alloc, variables, query.atoms.as_slice(), &parts)?;
    match unifier(alloc, query.vars, &pairs)? {
        Some(to) => {
            let head = head_of(alloc, query.head.as_slice(), &to)?;
            let probes = probes_of(
                alloc,
                table,
                query.atoms.as_slice(),
                variables,
                set,
                &parts,
                &to,
            )?;
            Ok(Some(Disjunct {
                head: List::of(head),
                probes,
                vars: query.vars,
            }))
        }
        None => Ok(None),
    }
}

/// Whether each part folds into the tree of some role.
fn all_fold(table: &TreeTable, parts: &[u8]) -> bool
    ensures { result ≡ list_all (λ m. not (length (slice_index_or table.now m []) == 0)) parts.now }
{
    parts.iter().all(|part| !table.roles(*part).is_empty())
}

fn head_of(alloc: Global, head: &[u8], to: &[Term]) -> Result<Vec<Term>, AllocError>
    ensures { IfOk result (λ terms. terms.items ≡ map (term_at to.now) head.now) }
{
    head.iter().map(|v| term_at(to, *v)).collect(alloc)
}

/// The probes of a set: of the atoms without a member, and of the parts.
fn probes_of(
    alloc: Global,
    table: &TreeTable,
    atoms: &[Atom],
    variables: &[u8],
    set: u8,
    parts: &[u8],
    to: &[Term],
) -> Result<List<Probe>, NoMemory>
    requires few { length variables.now ≤ 8 }
    requires fits { set < 2 ^ length variables.now }
    requires parts_fit { All (λ m. m < 2 ^ length variables.now) parts.now }
    ensures { IfOk result (λ probes.
        probes ≡ probes_of variables.now table.now atoms.now set parts.now to.now) }
{
    let mut probes = outside_probes(alloc, atoms, variables, set, to)?;
    for part in parts {
        let at = term_at(to, member_of(variables, *part));
        probes.push(part_probe(alloc, table.roles(*part), at)?)?;
    }
    Ok(probes)
}

fn outside_probes(
    alloc: Global,
    atoms: &[Atom],
    variables: &[u8],
    set: u8,
    to: &[Term],
) -> Result<List<Probe>, NoMemory>
    requires few { length variables.now ≤ 8 }
    requires fits { set < 2 ^ length variables.now }
    ensures { IfOk result (λ probes. probes ≡ flat_map (outside_probe variables.now set to.now) atoms.now) }
{
    let mut probes = List::new(alloc);
    for atom in atoms {
        if !touches(variables, *atom, set) {
            probes.push(probe_of(alloc, *atom, to)?)?;
        }
    }
    Ok(probes)
}

/// What an atom asks of names.
fn probe_of(alloc: Global, atom: Atom, to: &[Term]) -> Result<Probe, NoMemory>
    ensures { IfOk result (λ probe. probe ≡ probe_of (term_at to.now) «atom») }
{
    match atom {
        Atom::Is { class, at } => {
            let mut basics = List::new(alloc);
            basics.push(Basic::Class(class))?;
            Ok(Probe::AnyOf {
                basics,
                at: put(to, at),
            })
        }
        Atom::Link {
            role,
            from,
            to: target,
        } => Ok(Probe::Joined {
            role,
            from: put(to, from),
            to: put(to, target),
        }),
    }
}

/// What a part asks of its name: one of its roles has an unnamed neighbour there.
fn part_probe(alloc: Global, roles: &[Role], at: Term) -> Result<Probe, NoMemory>
    ensures { IfOk result (λ probe. probe ≡ Any_ (map Some_ roles.now) at) }
{
    let basics = some_of_each(alloc, roles)?;
    Ok(Probe::AnyOf {
        basics: List::of(basics),
        at,
    })
}

fn some_of_each(alloc: Global, roles: &[Role]) -> Result<Vec<Basic>, AllocError>
    ensures { IfOk result (λ basics. basics.items ≡ map Some_ roles.now) }
{
    roles.iter().map(|role| Basic::SomeOf(*role)).collect(alloc)
}
