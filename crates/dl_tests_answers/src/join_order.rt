// The order in which a join takes its variables, and leaves taken off: joins that end at once so, and else go over
// more than 1,000,000,000 names.
ghost use Rattle.std.specs.Prelude.{◌≡◌, length, IfOk, OnOk};
ghost use Rattle.std.specs.List.Sorted.{IsSorted};
ghost use Rattle.dl_join.specs.Disjuncts.{AreSorted};
ghost use Rattle.dl_terms.specs.Order.{pair_cmp};

use dl_join::{is_safe, join};
use dl_terms::{Disjunct, List, NoMemory, Pair, Probe, Term};
use std::alloc::Global;
use std::test::Fail;

/// How many names the lists have.
const NAMES: u32 = 2_000;

/// The pairs to and from name 0, those of each name and the next one, each second name, name 0, and a name that no
/// pair has.
#[derive(Clone, Copy)]
enum Pairs {
    Hub,
    Chain,
    Half,
    Zero,
    Past,
}

/// A class at a term, where there is no second one, or a role between two; and its pairs.
type Atom = (Term, Option<Term>, Pairs);

const X: Term = Term::Var(0);

const Y: Term = Term::Var(1);

const Z: Term = Term::Var(2);

const U: Term = Term::Var(3);

const V: Term = Term::Var(4);

const W: Term = Term::Var(5);

/// A head, probes, and how many tuples they have.
const ROWS: &[(&[Term], &[Atom], u64)] = &[
    // Of lists of like size the variable of the head first: from another one on, it is found again for all names that
    // two or three variables of the circle have.
    (
        &[V],
        &[
            (X, Some(Y), Pairs::Hub),
            (Y, Some(Z), Pairs::Hub),
            (Z, Some(U), Pairs::Hub),
            (U, Some(X), Pairs::Hub),
            (U, Some(V), Pairs::Hub),
        ],
        2_000,
    ),
    // Those that are connected first, also before others of the head, which have three names free.
    (
        &[X, Z, V],
        &[
            (X, Some(Y), Pairs::Chain),
            (Y, Some(Z), Pairs::Chain),
            (Z, Some(U), Pairs::Chain),
            (U, Some(V), Pairs::Chain),
        ],
        1_997,
    ),
    // The smallest list first: from the other end on, three names are free before the class has none.
    (
        &[X, Y, Z, U, V, W],
        &[
            (X, Some(Y), Pairs::Hub),
            (Y, Some(Z), Pairs::Hub),
            (Z, Some(U), Pairs::Hub),
            (U, Some(V), Pairs::Hub),
            (V, Some(W), Pairs::Hub),
            (W, None, Pairs::Past),
        ],
        0,
    ),
    // Leaves taken off, one after the other: else three names are free back from the class.
    (
        &[X],
        &[
            (X, Some(Y), Pairs::Hub),
            (Y, Some(Z), Pairs::Hub),
            (Z, Some(U), Pairs::Hub),
            (U, Some(V), Pairs::Hub),
            (V, Some(W), Pairs::Hub),
            (W, None, Pairs::Zero),
        ],
        2_000,
    ),
    // Existential variables that nothing joins come last, whatever their lists: else each tuple is found 1,000,000,000
    // times.
    (
        &[X, Y],
        &[
            (X, Some(Y), Pairs::Chain),
            (Z, None, Pairs::Half),
            (U, None, Pairs::Half),
            (V, None, Pairs::Half),
        ],
        2_000,
    ),
];

fn pair_at(pairs: Pairs, i: u32) -> Pair {
    let name = i / 2;
    match pairs {
        Pairs::Hub => { if i % 2 == 0 { (0, name) } else { (name, 0) } }
        Pairs::Chain => (name, name.saturating_add(1)),
        Pairs::Half => (i, i),
        Pairs::Zero => (0, 0),
        Pairs::Past => (NAMES + 1, NAMES + 1),
    }
}

fn count_of(pairs: Pairs) -> u32 {
    match pairs {
        Pairs::Hub => 2 * NAMES,
        Pairs::Chain => 2 * NAMES,
        Pairs::Half => NAMES / 2,
        Pairs::Zero => 1,
        Pairs::Past => 1,
    }
}

fn list_of(alloc: Global, pairs: Pairs) -> Result<List<Pair>, NoMemory>
    ensures { IfOk result (λ list. IsSorted pair_cmp list) }
{
    let mut list = Vec::new(alloc);
    for i in 0..count_of(pairs) {
        let Ok(()) = list.push(pair_at(pairs, i)) else {
            return Err(NoMemory);
        };
    }
    list.sort_unstable();
    Ok(List::of(list))
}

fn probe_of(alloc: Global, at: Term, to: Option<Term>) -> Probe {
    match to {
        None => Probe::AnyOf {
            basics: List::new(alloc),
            at,
        },
        Some(to) => Probe::Joined {
            role: 0,
            from: at,
            to,
        },
    }
}

fn add_atoms(
    alloc: Global,
    atoms: &[Atom],
    probes: &mut List<Probe>,
    lists: &mut Vec<List<Pair>>,
) -> Result<(), NoMemory>
    requires count { length lists.old.items ≡ length probes.old }
    requires sorted { AreSorted lists.old.items }
    ensures count { OnOk result (length lists.new.items ≡ length probes.new) }
    ensures sorted { OnOk result (AreSorted lists.new.items) }
{
    for atom in atoms {
        probes.push(probe_of(alloc, atom.0, atom.1))?;
        let list = list_of(alloc, atom.2)?;
        let Ok(()) = lists.push(list) else {
            return Err(NoMemory);
        };
    }
    Ok(())
}

/// True where a join with a safe and short head has so many tuples.
fn has_count(alloc: Global, disjunct: &Disjunct, lists: &[List<Pair>], count: u64) -> bool
    requires count { length lists.now ≡ length disjunct.now.probes }
    requires sorted { AreSorted lists.now }
{
    if disjunct.head.len() > 9 || !is_safe(disjunct) {
        return false;
    }
    match join(alloc, disjunct, lists, count) {
        Ok(tuples) => tuples.len() == count,
        Err(_) => false,
    }
}

fn is_row(alloc: Global, row: &(&[Term], &[Atom], u64)) -> Result<bool, NoMemory> {
    let mut probes = List::new(alloc);
    let mut lists = Vec::new(alloc);
    add_atoms(alloc, row.1, &mut probes, &mut lists)?;
    let disjunct = Disjunct {
        head: dl_tests_base::axioms::list_of(alloc, row.0)?,
        probes,
        vars: 6,
    };
    Ok(has_count(alloc, &disjunct, lists.as_slice(), row.2))
}

fn rows_end(alloc: Global) -> Result<bool, NoMemory> {
    for row in ROWS {
        if !is_row(alloc, row)? {
            return Ok(false);
        }
    }
    Ok(true)
}

#[test]
fn joins_end_in_their_order(rt: HostRuntime) -> Result<(), Fail> {
    assert!(rt; rows_end(rt.alloc())?);
    Ok(())
}
