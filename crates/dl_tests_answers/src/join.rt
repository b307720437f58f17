ghost use Rattle.std.specs.Prelude.{◌≡◌, ◌<◌, length, IfOk, IfSome, OnOk};
ghost use Rattle.dl_terms.specs.Answers.{AscendStrictly};
ghost use Rattle.std.specs.List.Sorted.{IsSorted};
ghost use Rattle.dl_join.specs.Disjuncts.{AreSorted};
ghost use Rattle.dl_terms.specs.Order.{pair_cmp};

use dl_join::{JoinFault, is_safe, join, merge};
use dl_terms::{Disjunct, List, NoMemory, Pair, Probe, Term, Tuples};
use dl_tests_base::axioms::list_of;
use std::alloc::Global;

/// A probe: a class at a term, where there is no second one, or a role between two; and its pairs.
type Atom = (Term, Option<Term>, &'static [Pair]);

/// A head, probes, and the tuples that they have.
type Row = (&'static [Term], &'static [Atom], &'static [&'static [u32]]);

pub(crate) const X: Term = Term::Var(0);

pub(crate) const Y: Term = Term::Var(1);

pub(crate) const Z: Term = Term::Var(2);

const W: Term = Term::Var(3);

const ONE: Term = Term::Name(1);

const THREE: Term = Term::Name(3);

const FOUR: Term = Term::Name(4);

const CHAIN: &[Pair] = &[(1, 2), (1, 3), (2, 3), (3, 4)];

const LOOPS: &[Pair] = &[(1, 1), (1, 2), (2, 1), (3, 3)];

const CLASS: &[Pair] = &[(2, 2), (3, 3), (7, 7)];

const ROWS: &[Row] = &[
    // One role: its head as it stands, turned, and one of its ends.
    (
        &[X, Y],
        &[(X, Some(Y), CHAIN)],
        &[&[1, 2], &[1, 3], &[2, 3], &[3, 4]],
    ),
    (
        &[Y, X],
        &[(X, Some(Y), CHAIN)],
        &[&[2, 1], &[3, 1], &[3, 2], &[4, 3]],
    ),
    (&[Y], &[(X, Some(Y), CHAIN)], &[&[2], &[3], &[4]]),
    // A path of two: whole, its ends, and its middle.
    (
        &[X, Y, Z],
        &[(X, Some(Y), CHAIN), (Y, Some(Z), CHAIN)],
        &[&[1, 2, 3], &[1, 3, 4], &[2, 3, 4]],
    ),
    (
        &[X, Z],
        &[(X, Some(Y), CHAIN), (Y, Some(Z), CHAIN)],
        &[&[1, 3], &[1, 4], &[2, 4]],
    ),
    (
        &[Y],
        &[(X, Some(Y), CHAIN), (Y, Some(Z), CHAIN)],
        &[&[2], &[3]],
    ),
    // A triangle, and none where its last side is turned.
    (
        &[X, Y, Z],
        &[
            (X, Some(Y), CHAIN),
            (Y, Some(Z), CHAIN),
            (X, Some(Z), CHAIN),
        ],
        &[&[1, 2, 3]],
    ),
    (
        &[X, Y, Z],
        &[
            (X, Some(Y), CHAIN),
            (Y, Some(Z), CHAIN),
            (Z, Some(X), CHAIN),
        ],
        &[],
    ),
    // A variable twice in one probe, and two probes over one pair.
    (&[X], &[(X, Some(X), LOOPS)], &[&[1], &[3]]),
    (
        &[X, Y],
        &[(X, Some(Y), LOOPS), (Y, Some(X), LOOPS)],
        &[&[1, 1], &[1, 2], &[2, 1], &[3, 3]],
    ),
    // A class, and names behind and in front of a role and in the head.
    (
        &[X, Y],
        &[(X, Some(Y), CHAIN), (Y, None, CLASS)],
        &[&[1, 2], &[1, 3], &[2, 3]],
    ),
    (&[X], &[(X, Some(FOUR), CHAIN)], &[&[3]]),
    (
        &[FOUR, X, FOUR],
        &[(ONE, Some(X), CHAIN)],
        &[&[4, 2, 4], &[4, 3, 4]],
    ),
    // Probes without variables, of which one fails, and an empty head.
    (
        &[],
        &[(THREE, Some(FOUR), CHAIN), (Term::Name(7), None, CLASS)],
        &[&[]],
    ),
    (&[X], &[(X, None, CLASS), (FOUR, None, CLASS)], &[]),
    // Existential variables that hang on one other alone: behind a class, by two probes, several on one, and all.
    (
        &[X],
        &[(X, Some(Y), CHAIN), (Y, Some(Z), CHAIN), (Z, None, CLASS)],
        &[&[1]],
    ),
    (
        &[X],
        &[
            (X, Some(Y), CHAIN),
            (Y, Some(Z), LOOPS),
            (Z, Some(Y), LOOPS),
            (Z, None, CLASS),
        ],
        &[&[1], &[2]],
    ),
    (
        &[Y],
        &[
            (X, Some(Y), CHAIN),
            (Y, Some(Z), CHAIN),
            (Y, Some(W), CHAIN),
            (W, None, CLASS),
        ],
        &[&[2]],
    ),
    (
        &[],
        &[
            (X, Some(Y), CHAIN),
            (Y, Some(Z), CHAIN),
            (Z, Some(W), CHAIN),
        ],
        &[&[]],
    ),
    // Two parts that share nothing.
    (
        &[W, X],
        &[(X, Some(FOUR), CHAIN), (W, None, CLASS)],
        &[&[2, 3], &[3, 3], &[7, 3]],
    ),
];

/// The sorted list of pairs.
pub(crate) fn sorted(alloc: Global, pairs: &[Pair]) -> Result<List<Pair>, NoMemory>
    ensures { IfOk result (λ list. IsSorted pair_cmp list) }
{
    let mut items = Vec::new(alloc);
    items.extend_from_slice(pairs)?;
    items.sort_unstable();
    Ok(List::of(items))
}

/// A probe of an atom.
pub(crate) fn probe_of(alloc: Global, at: Term, to: Option<Term>) -> Probe {
    match to {
        None => Probe::AnyOf {
            basics: List::new(alloc),
            at,
        },
        Some(to) => Probe::Joined {
            role: 0,
            from: at,
            to,
        },
    }
}

/// Adds the probe and the list of each atom.
fn add_atoms(
    alloc: Global,
    atoms: &[Atom],
    probes: &mut List<Probe>,
    lists: &mut Vec<List<Pair>>,
) -> Result<(), NoMemory>
    requires count { length lists.old.items ≡ length probes.old }
    requires sorted { AreSorted lists.old.items }
    ensures count { OnOk result (length lists.new.items ≡ length probes.new) }
    ensures sorted { OnOk result (AreSorted lists.new.items) }
{
    for atom in atoms {
        probes.push(probe_of(alloc, atom.0, atom.1))?;
        let list = sorted(alloc, atom.2)?;
        let Ok(()) = lists.push(list) else {
            return Err(NoMemory);
        };
    }
    Ok(())
}

/// True where the tuple at an index is this one.
fn is_tuple(tuples: &Tuples, i: u64, row: &[u32]) -> bool
    requires { i < length tuples.now.tuples }
{
    if row.len() != tuples.width() as usize {
        return false;
    }
    for j in 0..tuples.width() {
        if tuples.name(i, j) != row[j as usize] {
            return false;
        }
    }
    true
}

/// True where the tuples are these.
pub(crate) fn are_tuples(tuples: &Tuples, rows: &[&[u32]]) -> bool {
    if tuples.len() != rows.len() as u64 {
        return false;
    }
    for (i, row) in rows.iter().enumerate() {
        if !is_tuple(tuples, i as u64, row) {
            return false;
        }
    }
    true
}

/// The join, of a disjunct with a safe and short head.
pub(crate) fn joined(
    alloc: Global,
    disjunct: &Disjunct,
    lists: &[List<Pair>],
    limit: u64,
) -> Option<Result<Tuples, JoinFault>>
    requires count { length lists.now ≡ length disjunct.now.probes }
    requires sorted { AreSorted lists.now }
{
    if disjunct.head.len() > 9 || !is_safe(disjunct) {
        return None;
    }
    Some(join(alloc, disjunct, lists, limit))
}

/// True where the join has these tuples.
fn has_tuples(alloc: Global, disjunct: &Disjunct, lists: &[List<Pair>], rows: &[&[u32]]) -> bool
    requires count { length lists.now ≡ length disjunct.now.probes }
    requires sorted { AreSorted lists.now }
{
    match joined(alloc, disjunct, lists, rows.len() as u64) {
        Some(Ok(tuples)) => are_tuples(&tuples, rows),
        _ => false,
    }
}

/// True where the join refuses one tuple less than it has, if it has one.
fn refuses_one_less(alloc: Global, disjunct: &Disjunct, lists: &[List<Pair>], count: u64) -> bool
    requires count { length lists.now ≡ length disjunct.now.probes }
    requires sorted { AreSorted lists.now }
{
    match count.checked_sub(1) {
        Some(limit) => matches!(
            joined(alloc, disjunct, lists, limit),
            Some(Err(JoinFault::TooMany))
        ),
        None => true,
    }
}

/// True where the join of a row has its tuples, and one less is refused.
fn is_row(alloc: Global, row: &Row) -> Result<bool, NoMemory> {
    let mut probes = List::new(alloc);
    let mut lists = Vec::new(alloc);
    add_atoms(alloc, row.1, &mut probes, &mut lists)?;
    let disjunct = Disjunct {
        head: list_of(alloc, row.0)?,
        probes,
        vars: 4,
    };
    Ok(
        has_tuples(alloc, &disjunct, lists.as_slice(), row.2)
            && refuses_one_less(alloc, &disjunct, lists.as_slice(), row.2.len() as u64),
    )
}

/// True where each row has its tuples.
fn rows_have_their_tuples(alloc: Global) -> Result<bool, NoMemory> {
    for row in ROWS {
        if !is_row(alloc, row)? {
            return Ok(false);
        }
    }
    Ok(true)
}

#[test]
fn small_joins(rt: HostRuntime) {
    assert!(rt; matches!(rows_have_their_tuples(rt.alloc()), Ok(true)));
}

/// The lists of pairs of one probe.
fn one_list(alloc: Global, pairs: &[Pair]) -> Result<Vec<List<Pair>>, NoMemory>
    ensures count { IfOk result (λ lists. length lists.items ≡ 1) }
    ensures sorted { IfOk result (λ lists. AreSorted lists.items) }
{
    let mut lists = Vec::new(alloc);
    let list = sorted(alloc, pairs)?;
    match lists.push(list) {
        Ok(()) => Ok(lists),
        Err(_) => Err(NoMemory),
    }
}

/// The tuples of a disjunct with one probe over some pairs.
fn tuples_of(alloc: Global, disjunct: &Disjunct, lists: &[List<Pair>]) -> Result<Tuples, JoinFault>
    requires count { length lists.now ≡ 1 }
    requires sorted { AreSorted lists.now }
    ensures width { IfOk result (λ tuples. tuples.width ≡ length disjunct.now.head) }
    ensures ascending { IfOk result (λ tuples. AscendStrictly tuples.tuples) }
{
    if disjunct.probes.len() != 1 || disjunct.head.len() > 9 || !is_safe(disjunct) {
        return Err(JoinFault::NoMemory);
    }
    join(alloc, disjunct, lists, 100)
}

/// The pairs of both lists of pairs, each once.
const UNION: &[&[u32]] = &[
    &[1, 1],
    &[1, 2],
    &[1, 3],
    &[2, 1],
    &[2, 3],
    &[3, 3],
    &[3, 4],
];

/// The disjunct of a role's own pairs.
fn of_role(alloc: Global) -> Result<Disjunct, NoMemory> {
    let mut probes = List::new(alloc);
    probes.push(probe_of(alloc, X, Some(Y)))?;
    Ok(Disjunct {
        head: list_of(alloc, &[X, Y])?,
        probes,
        vars: 2,
    })
}

/// True where two answers together are the union, and one tuple less is refused.
fn unite(alloc: Global, one: &Tuples, two: &Tuples) -> bool
    requires width { one.now.width ≡ two.now.width }
    requires one { AscendStrictly one.now.tuples }
    requires two { AscendStrictly two.now.tuples }
{
    let Ok(both) = merge(alloc, one, two, 7) else {
        return false;
    };
    are_tuples(&both, UNION) && matches!(merge(alloc, one, two, 6), Err(JoinFault::TooMany))
}

/// True where the pairs of two lists have their union.
fn have_union(alloc: Global, disjunct: &Disjunct, one: &[List<Pair>], two: &[List<Pair>]) -> bool
    requires ones { length one.now ≡ 1 }
    requires ones_sorted { AreSorted one.now }
    requires twos { length two.now ≡ 1 }
    requires twos_sorted { AreSorted two.now }
{
    match tuples_of(alloc, disjunct, one) {
        Ok(one) => match tuples_of(alloc, disjunct, two) {
            Ok(two) => unite(alloc, &one, &two),
            Err(_) => false,
        },
        Err(_) => false,
    }
}

/// True where the union of two answers has the tuples of both, each once, and one less is refused.
fn is_the_union(alloc: Global) -> Result<bool, NoMemory> {
    let disjunct = of_role(alloc)?;
    let one = one_list(alloc, CHAIN)?;
    let two = one_list(alloc, LOOPS)?;
    Ok(have_union(alloc, &disjunct, one.as_slice(), two.as_slice()))
}

#[test]
fn unions(rt: HostRuntime) {
    assert!(rt; matches!(is_the_union(rt.alloc()), Ok(true)));
}
