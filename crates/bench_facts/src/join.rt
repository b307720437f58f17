// Joins over generated lists of pairs.
ghost use Rattle.std.specs.Prelude.{◌≡◌, length, IfOk, OnOk};
ghost use Rattle.std.specs.List.Sorted.{IsSorted};
ghost use Rattle.dl_join.specs.Disjuncts.{AreSorted};
ghost use Rattle.dl_terms.specs.Order.{pair_cmp};

use dl_join::{JoinFault, is_safe, join};
use dl_terms::{Disjunct, List, NoMemory, Pair, Probe, Term, set_of};
use std::alloc::{AllocError, Global};
use std::io;

/// What `run` takes: a query, how many pairs are drawn for each list, between how many names, the limit of the join,
/// and how often it is made. Of the skewed lists, one name is in a quarter of the pairs that are drawn.
pub const WORDS: &str =
    "join path2|ends|path3|star|triangle|cycle|mutual|product even|skewed PAIRS NAMES LIMIT ROUNDS";

/// A class at a term, where there is no second one, or a role between two; and the number of its list.
type Atom = (Term, Option<Term>, u64);

const X: Term = Term::Var(0);

const Y: Term = Term::Var(1);

const Z: Term = Term::Var(2);

const U: Term = Term::Var(3);

const V: Term = Term::Var(4);

const PATH: &[Atom] = &[(X, Some(Y), 0), (Y, Some(Z), 1)];

const PATH_INTO_CLASS: &[Atom] = &[
    (X, Some(Y), 0),
    (Y, Some(Z), 1),
    (Z, Some(U), 2),
    (U, None, 4),
];

const STAR: &[Atom] = &[
    (X, None, 4),
    (X, Some(Y), 0),
    (X, Some(Z), 1),
    (X, Some(U), 2),
    (X, Some(V), 3),
];

const TRIANGLE: &[Atom] = &[(X, Some(Y), 0), (Y, Some(Z), 1), (Z, Some(X), 2)];

const CYCLE: &[Atom] = &[
    (X, Some(Y), 0),
    (Y, Some(Z), 1),
    (Z, Some(U), 2),
    (U, Some(X), 3),
];

const MUTUAL: &[Atom] = &[(X, Some(Y), 0), (Y, Some(X), 0)];

const PRODUCT: &[Atom] = &[(X, Some(Z), 0), (Y, Some(U), 1)];

/// The lists to make.
#[derive(Clone, Copy)]
struct Size {
    skewed: bool,
    pairs: u32,
    names: u32,
}

/// Makes the join that the words say, and prints how many pairs its lists have, and how many tuples it has: one more
/// than the limit where they are more. False where the words say nothing.
pub fn run<R: AllocGlobal + Print>(rt: &R, words: &[String]) -> io::Result<bool> {
    let (Some((head, atoms)), Some(size), Some((limit, rounds))) = (
        query_of(words),
        size_of(words),
        limit_of(words),
    ) else {
        return Ok(false);
    };
    let mut probes = List::new(rt.alloc());
    let mut lists = Vec::new(rt.alloc());
    add_atoms(rt.alloc(), size, atoms, &mut probes, &mut lists).map_err(|_refused| AllocError)?;
    let disjunct = Disjunct {
        head: head_of(rt.alloc(), head).map_err(|_refused| AllocError)?,
        probes,
        vars: 5,
    };
    let tuples = joined(rt.alloc(), &disjunct, lists.as_slice(), limit, rounds).map_err(
        |_refused| AllocError,
    )?;
    println!(rt; "pairs {} tuples {tuples}", pairs_in(lists.as_slice()))?;
    Ok(true)
}

/// The head and the atoms of the query that is asked for.
fn query_of(words: &[String]) -> Option<(&'static [Term], &'static [Atom])> {
    match words.get(1)?.as_str() {
        "path2" => Some((&[X], PATH)),
        "ends" => Some((&[X, Z], PATH)),
        "path3" => Some((&[X], PATH_INTO_CLASS)),
        "star" => Some((&[X], STAR)),
        "triangle" => Some((&[X, Y, Z], TRIANGLE)),
        "cycle" => Some((&[X, Z], CYCLE)),
        "mutual" => Some((&[X, Y], MUTUAL)),
        "product" => Some((&[X, Y], PRODUCT)),
        _ => None,
    }
}

/// The lists that are asked for.
fn size_of(words: &[String]) -> Option<Size> {
    let skewed = match words.get(2)?.as_str() {
        "even" => false,
        "skewed" => true,
        _ => return None,
    };
    let pairs = words.get(3)?.as_str().parse::<u32>().ok()?;
    let names = words.get(4)?.as_str().parse::<u32>().ok()?;
    Some(Size {
        skewed,
        pairs,
        names,
    })
}

/// The limit and the number of rounds.
fn limit_of(words: &[String]) -> Option<(u64, u32)> {
    let limit = words.get(5)?.as_str().parse::<u64>().ok()?;
    let rounds = words.get(6)?.as_str().parse::<u32>().ok()?;
    Some((limit, rounds))
}

/// Adds the probe and the list of each atom.
fn add_atoms(
    alloc: Global,
    size: Size,
    atoms: &[Atom],
    probes: &mut List<Probe>,
    lists: &mut Vec<List<Pair>>,
) -> Result<(), NoMemory>
    requires count { length lists.old.items ≡ length probes.old }
    requires sorted { AreSorted lists.old.items }
    ensures count { OnOk result (length lists.new.items ≡ length probes.new) }
    ensures sorted { OnOk result (AreSorted lists.new.items) }
{
    for atom in atoms {
        probes.push(probe_of(alloc, *atom))?;
        let list = list_of(alloc, size, *atom)?;
        let Ok(()) = lists.push(list) else {
            return Err(NoMemory);
        };
    }
    Ok(())
}

fn probe_of(alloc: Global, atom: Atom) -> Probe {
    match atom.1 {
        None => Probe::AnyOf {
            basics: List::new(alloc),
            at: atom.0,
        },
        Some(to) => Probe::Joined {
            role: 0,
            from: atom.0,
            to,
        },
    }
}

/// The list of an atom: one name in a hundred of a class, or the pairs that are drawn of a role.
fn list_of(alloc: Global, size: Size, atom: Atom) -> Result<List<Pair>, NoMemory>
    ensures { IfOk result (λ list. IsSorted pair_cmp list) }
{
    let pairs = match atom.1 {
        None => class_of(alloc, size)?,
        Some(_) => drawn(alloc, size, atom.2)?,
    };
    Ok(set_of(pairs))
}

fn class_of(alloc: Global, size: Size) -> Result<List<Pair>, NoMemory> {
    let mut members = List::new(alloc);
    for name in 0..size.names {
        if name % 100 == 0 {
            members.push((name, name))?;
        }
    }
    Ok(members)
}

fn drawn(alloc: Global, size: Size, list: u64) -> Result<List<Pair>, NoMemory> {
    let mut pairs = List::new(alloc);
    for i in 0..size.pairs {
        pairs.push(pair_of(size, list, i))?;
    }
    Ok(pairs)
}

/// A pair of a list. Where it is skewed, name 0 is first in an eighth of them, and second in an eighth.
fn pair_of(size: Size, list: u64, i: u32) -> Pair {
    let drawn = mixed((list << 32) | u64::from(i));
    let names = u64::from(size.names.max(1));
    let one = ((drawn >> 32) % names) as u32;
    let other = ((drawn & 0xFFFF_FFFF) % names) as u32;
    match i % 8 {
        0 if size.skewed => (0, other),
        1 if size.skewed => (one, 0),
        _ => (one, other),
    }
}

/// A number that looks like drawn, of another one (SplitMix64: Steele, Lea, Flood, 2014).
pub(crate) fn mixed(number: u64) -> u64 {
    let mut z = number.wrapping_mul(0x9E37_79B9_7F4A_7C15);
    z = (z ^ (z >> 30)).wrapping_mul(0xBF58_476D_1CE4_E5B9);
    z = (z ^ (z >> 27)).wrapping_mul(0x94D0_49BB_1331_11EB);
    z ^ (z >> 31)
}

fn head_of(alloc: Global, terms: &[Term]) -> Result<List<Term>, NoMemory> {
    let mut head = List::new(alloc);
    for term in terms {
        head.push(*term)?;
    }
    Ok(head)
}

/// How many tuples the join has, or one more than the limit.
fn joined(
    alloc: Global,
    disjunct: &Disjunct,
    lists: &[List<Pair>],
    limit: u64,
    rounds: u32,
) -> Result<u64, NoMemory>
    requires count { length lists.now ≡ length disjunct.now.probes }
    requires sorted { AreSorted lists.now }
{
    if disjunct.head.len() > 9 || !is_safe(disjunct) {
        return Ok(0);
    }
    let mut count = 0;
    for _ in 0..rounds {
        count = match join(alloc, disjunct, lists, limit) {
            Ok(tuples) => tuples.len(),
            Err(JoinFault::TooMany) => limit.saturating_add(1),
            Err(JoinFault::NoMemory) => return Err(NoMemory),
        };
    }
    Ok(count)
}

fn pairs_in(lists: &[List<Pair>]) -> u64 {
    let mut pairs = 0u64;
    for list in lists {
        pairs = pairs.wrapping_add(list.len() as u64);
    }
    pairs
}
