// Joins made by numbers that look random, beside a plain body that tries all names.
ghost use Rattle.std.specs.Prelude.{◌≡◌, ◌<◌, length, IfOk, OnOk};
ghost use Rattle.std.specs.List.Sorted.{IsSorted};
ghost use Rattle.dl_join.specs.Disjuncts.{AreSorted};
ghost use Rattle.dl_terms.specs.Order.{pair_cmp};

use crate::join::{X, Y, Z, joined, probe_of, sorted};
use dl_terms::{Disjunct, List, NoMemory, Pair, Probe, Term, Tuples};
use std::alloc::Global;

/// The name that a term has.
fn name_of(term: Term, names: &[u32]) -> u32 {
    match term {
        Term::Name(name) => name,
        Term::Var(v) => names.get(v as usize).copied().unwrap_or(0),
    }
}

/// True where the pair is there, or the first name of one where no second one is asked.
fn has_pair(pairs: &[Pair], one: u32, two: Option<u32>) -> bool {
    for pair in pairs {
        if pair.0 == one && two.unwrap_or(pair.1) == pair.1 {
            return true;
        }
    }
    false
}

/// True where each probe holds.
fn all_hold(probes: &[Probe], lists: &[List<Pair>], names: &[u32]) -> bool {
    for (k, probe) in probes.iter().enumerate() {
        let Some(list) = lists.get(k) else {
            return false;
        };
        let (one, two) = match probe {
            Probe::AnyOf { at, .. } => (name_of(*at, names), None),
            Probe::Joined { from, to, .. } => (name_of(*from, names), Some(name_of(*to, names))),
        };
        if !has_pair(list.as_slice(), one, two) {
            return false;
        }
    }
    true
}

/// True where the names give the tuple at an index to the head.
fn gives(tuples: &Tuples, i: u64, head: &[Term], names: &[u32]) -> bool
    requires { i < length tuples.now.tuples }
{
    if head.len() != tuples.width() as usize {
        return false;
    }
    for j in 0..tuples.width() {
        if tuples.name(i, j) != name_of(head[j as usize], names) {
            return false;
        }
    }
    true
}

/// Where the tuple that names give to a head stands.
fn place_of(tuples: &Tuples, head: &[Term], names: &[u32]) -> Option<u64> {
    for i in 0..tuples.len() {
        if gives(tuples, i, head, names) {
            return Some(i);
        }
    }
    None
}

/// True where the tuples are those that some of the names below 5 give: each is found, and none else is there.
fn are_all(
    alloc: Global,
    disjunct: &Disjunct,
    lists: &[List<Pair>],
    tuples: &Tuples,
) -> Result<bool, NoMemory> {
    let mut found = Vec::new(alloc);
    for n in 0..125u32 {
        let names = [n % 5, n / 5 % 5, n / 25];
        if all_hold(disjunct.probes.as_slice(), lists, &names) {
            let Some(i) = place_of(tuples, disjunct.head.as_slice(), &names) else {
                return Ok(false);
            };
            let Ok(()) = found.push(i) else {
                return Err(NoMemory);
            };
        }
    }
    found.sort_unstable();
    found.dedup();
    Ok(found.len() as u64 == tuples.len())
}

/// The next of a row of numbers that look random.
fn next(state: u64) -> u64 {
    state
        .wrapping_mul(6_364_136_223_846_793_005)
        .wrapping_add(1_442_695_040_888_963_407)
}

/// A term from a number.
fn term_of(number: u64) -> Term {
    match (number >> 33) % 5 {
        0 => X,
        1 => Y,
        2 => Z,
        _ => Term::Name(((number >> 40) % 5) as u32),
    }
}

/// Adds up to eight pairs of names below 5.
fn add_pairs(seed: u64, pairs: &mut Vec<Pair>) -> Result<(), NoMemory> {
    let mut state = seed;
    for _ in 0..(seed >> 35) % 9 {
        state = next(state);
        let Ok(()) = pairs.push((((state >> 33) % 5) as u32, ((state >> 43) % 5) as u32)) else {
            return Err(NoMemory);
        };
    }
    Ok(())
}

/// A second term of a probe, or none.
fn second_of(number: u64) -> Option<Term> {
    if number >> 62 == 0 {
        None
    } else {
        Some(term_of(number))
    }
}

/// Up to eight pairs of names below 5, sorted.
fn pairs_of(alloc: Global, seed: u64) -> Result<List<Pair>, NoMemory>
    ensures { IfOk result (λ list. IsSorted pair_cmp list) }
{
    let mut pairs = Vec::new(alloc);
    add_pairs(seed, &mut pairs)?;
    sorted(alloc, pairs.as_slice())
}

/// Adds some probes and their lists.
fn add_probes(
    alloc: Global,
    seed: u64,
    probes: &mut List<Probe>,
    lists: &mut Vec<List<Pair>>,
) -> Result<(), NoMemory>
    requires count { length lists.old.items ≡ length probes.old }
    requires sorted { AreSorted lists.old.items }
    ensures count { OnOk result (length lists.new.items ≡ length probes.new) }
    ensures sorted { OnOk result (AreSorted lists.new.items) }
{
    let mut state = seed;
    for _ in 0..(seed >> 37) % 4 {
        let (one, two) = (next(state), next(next(state)));
        state = next(two);
        probes.push(probe_of(alloc, term_of(one), second_of(two)))?;
        let list = pairs_of(alloc, state)?;
        let Ok(()) = lists.push(list) else {
            return Err(NoMemory);
        };
    }
    Ok(())
}

/// Up to three terms from a number.
fn head_of(alloc: Global, seed: u64) -> Result<List<Term>, NoMemory> {
    let mut head = List::new(alloc);
    let mut state = seed;
    for _ in 0..(seed >> 33) % 4 {
        state = next(state);
        head.push(term_of(state))?;
    }
    Ok(head)
}

/// True where a join, if its head is safe, has exactly the tuples of a plain body.
fn joins_plainly(alloc: Global, disjunct: &Disjunct, lists: &[List<Pair>]) -> Result<bool, NoMemory>
    requires count { length lists.now ≡ length disjunct.now.probes }
    requires sorted { AreSorted lists.now }
{
    match joined(alloc, disjunct, lists, 1000) {
        Some(Ok(tuples)) => are_all(alloc, disjunct, lists, &tuples),
        Some(Err(_)) => Ok(false),
        None => Ok(true),
    }
}

/// True where that is so of the head and the probes from a number.
fn is_plain(alloc: Global, seed: u64) -> Result<bool, NoMemory> {
    let head = head_of(alloc, next(seed))?;
    let mut probes = List::new(alloc);
    let mut lists = Vec::new(alloc);
    add_probes(alloc, next(next(!seed)), &mut probes, &mut lists)?;
    let disjunct = Disjunct {
        head,
        probes,
        vars: 3,
    };
    joins_plainly(alloc, &disjunct, lists.as_slice())
}

/// True where the joins from many numbers are plain.
fn are_plain(alloc: Global) -> Result<bool, NoMemory> {
    for seed in 0..600u64 {
        if !is_plain(alloc, next(next(seed)))? {
            return Ok(false);
        }
    }
    Ok(true)
}

#[test]
fn joins_as_a_plain_body(rt: HostRuntime) {
    assert!(rt; matches!(are_plain(rt.alloc()), Ok(true)));
}
