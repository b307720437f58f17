// What the atoms of a query ask where some variables of a set stand at one role.
ghost use Rattle.std.specs.Prelude.{◌≡◌, ◌&&◌, ◌||◌, ℕ, not, true, false, [], slice_index_or, IfOk};
ghost use Rattle.std.specs.List.{Contains, list_all};
ghost use Rattle.dl_reach.specs.Rows.{row_has};
ghost use Rattle.dl_tree.specs.declared.atoms.AtomTest.TheVariants.{Link};
ghost use Rattle.dl_tree.specs.Rows.{TellsRow};
ghost use Rattle.dl_tree.specs.Tests.{has, test_stands, test_at, tests_at, splits_at, column, may_split, AreTops, SomeSplit};

use crate::bits::{empty, join, keep};
use dl_terms::{List, NoMemory};
use std::alloc::{AllocError, Global};

/// What one atom asks of a role. `bit` is the bit of its variable, and `holds` says whether its class holds below
/// the role; `out` and `into` say whether the role is below its property's inverse, and below the property.
#[derive(Clone, Copy)]
pub(crate) enum AtomTest {
    Is {
        bit: u8,
        holds: bool,
    },
    Link {
        from: u8,
        to: u8,
        out: bool,
        into: bool,
    },
}

/// What one atom asks of the roles of a hierarchy: as `AtomTest`, with a row of bits over the roles for each test.
#[derive(Drop)]
pub(crate) enum AtomRows {
    Is {
        bit: u8,
        holds: List<u64>,
    },
    Link {
        from: u8,
        to: u8,
        out: List<u64>,
        into: List<u64>,
    },
}

/// The sets of members of a set that may stand at a role at all: no two of them are linked, and all that are linked
/// to a term outside are among them.
pub(crate) fn tops(alloc: Global, links: &[(u8, u8)], s: u8) -> Result<Vec<u8>, AllocError>
    ensures { IfOk result (λ tops. AreTops links.now s tops.items) }
{
    let mut tops = Vec::new(alloc);
    for less in 0..s {
        if may_split(links, s, less + 1) {
            tops.push(less + 1)?;
        }
    }
    Ok(tops)
}

fn may_split(links: &[(u8, u8)], s: u8, m: u8) -> bool
    ensures { result ≡ may_split links.now s m }
{
    m & s == m && links_stand(links, s, m)
}

fn links_stand(links: &[(u8, u8)], s: u8, m: u8) -> bool
    ensures { result ≡ list_all (λ e. test_stands s m (Link e.0 e.1 true true)) links.now }
{
    links
        .iter()
        .all(|link| link_stands(*link, true, true, s, m))
}

fn link_stands(link: (u8, u8), out: bool, into: bool, s: u8, m: u8) -> bool
    ensures { result ≡ test_stands s m (Link link.0 link.1 out into) }
{
    stands_at(
        &AtomTest::Link {
            from: link.0,
            to: link.1,
            out,
            into,
        },
        s,
        m,
    )
}

/// For each role whether some of these sets of members may stand at it, while the rest of `s` folds below it, which
/// the rows of `below` say of each set.
pub(crate) fn bases(
    alloc: Global,
    atoms: &[AtomRows],
    below: &[List<u64>],
    places: usize,
    s: u8,
    tops: &[u8],
) -> Result<List<u64>, NoMemory>
    ensures { IfOk result (TellsRow places
        (λ i. SomeSplit (tests_at atoms.now i) (column below.now i) tops.now s)) }
{
    let mut found = empty(alloc, places)?;
    for m in tops {
        let row = standing(alloc, atoms, below, s, *m)?;
        join(&mut found, &row);
    }
    Ok(List::of(found))
}

/// For each role whether the members of `m` may stand at it, while the rest of `s` folds below it.
fn standing(
    alloc: Global,
    atoms: &[AtomRows],
    below: &[List<u64>],
    s: u8,
    m: u8,
) -> Result<Vec<u64>, AllocError>
    ensures { IfOk result (λ row. (i : ℕ) →
        row_has row.items i ≡ splits_at (tests_at atoms.now i) (column below.now i) s m) }
{
    if m & s != m {
        return Ok(Vec::new(alloc));
    }
    let mut row = Vec::from_slice(alloc, row_at(below, (s & !m) as usize))?;
    for atom in atoms {
        ask(&mut row, atom, s, m);
    }
    Ok(row)
}

/// The row of a set, or an empty one.
pub(crate) fn row_at(rows: &[List<u64>], set: usize) -> &[u64]
    ensures { result.now ≡ slice_index_or rows.now set [] }
{
    match rows.get(set) {
        Some(row) => row.as_slice(),
        None => &[],
    }
}

/// Leaves the roles at which the atom lets the members of `m` stand.
fn ask(row: &mut Vec<u64>, atom: &AtomRows, s: u8, m: u8)
    ensures { (i : ℕ) → row_has row.new.items i
        ≡ (row_has row.old.items i && test_stands s m (test_at i atom.now)) }
{
    match atom {
        AtomRows::Is { bit, holds } => keep(row, is_apart(*bit, m), holds.as_slice()),
        AtomRows::Link {
            from,
            to,
            out,
            into,
        } => ask_link(row, (*from, *to), out.as_slice(), into.as_slice(), s, m),
    }
}

fn is_apart(bit: u8, m: u8) -> bool
    ensures { result ≡ not (has bit m) }
{
    bit & m == 0
}

/// Whether two linked terms are not both among the members that stand at one role.
fn are_apart(from: u8, to: u8, m: u8) -> bool
    ensures { result ≡ (not (has from m) || not (has to m)) }
{
    let from_is = is_apart(from, m);
    let to_is = is_apart(to, m);
    from_is || to_is
}

/// The same of a role atom: all roles pass where all do that aren't below its property, or its inverse.
fn ask_link(row: &mut Vec<u64>, link: (u8, u8), out: &[u64], into: &[u64], s: u8, m: u8)
    ensures { (i : ℕ) → row_has row.new.items i ≡ (row_has row.old.items i
        && test_stands s m (Link link.0 link.1 (row_has out.now i) (row_has into.now i))) }
{
    keep(row, link_stands(link, true, true, s, m), &[]);
    keep(row, link_stands(link, false, true, s, m), out);
    keep(row, link_stands(link, true, false, s, m), into);
}

/// Whether the members of `m` may stand at the role and those of `s` that are not in `m` below it.
fn stands_at(test: &AtomTest, s: u8, m: u8) -> bool
    ensures { result ≡ test_stands s m test.now }
{
    match test {
        AtomTest::Is { bit, holds } => *bit & m == 0 || *holds,
        AtomTest::Link {
            from,
            to,
            out,
            into,
        } => {
            are_apart(*from, *to, m)
                && (*from & s == 0 || *to & s != 0 || *from & m != 0 && *out)
                && (*to & s == 0 || *from & s != 0 || *to & m != 0 && *into)
        }
    }
}
