use dl_intervals::{Intervals, NoMemory, ascends};
use std::alloc::Global;

/// The greatest number that may be held.
const TOP: u32 = (1 << 31) - 1;

/// Two lists of numbers, and the intervals of the numbers of both.
const TABLE: &[(&[u32], &[u32], &[(u32, u32)])] = &[
    (&[1, 2], &[3, 4], &[(1, 4)]),
    (&[], &[], &[]),
    (&[7], &[], &[(7, 7)]),
    (&[], &[0], &[(0, 0)]),
    (&[5, 6, 9], &[5, 6, 9], &[(5, 6), (9, 9)]),
    (&[1, 2, 3, 4, 5, 6], &[3, 4], &[(1, 6)]),
    (&[3, 4], &[1, 2, 3, 4, 5, 6], &[(1, 6)]),
    (&[1, 2, 3], &[2, 3, 4, 8], &[(1, 4), (8, 8)]),
    (&[0, 2, 4], &[1, 3, 9], &[(0, 4), (9, 9)]),
    (&[1, 20], &[10, 30], &[(1, 1), (10, 10), (20, 20), (30, 30)]),
    (
        &[2, 3, 12],
        &[4, 5, 13, TOP],
        &[(2, 5), (12, 13), (TOP, TOP)],
    ),
    (&[TOP], &[TOP - 1], &[(TOP - 1, TOP)]),
];

/// Whether these are the intervals.
pub(crate) fn are(intervals: &Intervals, wanted: &[(u32, u32)]) -> bool {
    if intervals.len() as usize != wanted.len() {
        return false;
    }
    for i in 0..intervals.len() {
        if intervals.get(i) != wanted[i as usize] {
            return false;
        }
    }
    true
}

/// Whether the number is held exactly where one of the lists has it.
fn agrees_at(intervals: &Intervals, left: &[u32], right: &[u32], n: u32) -> bool {
    intervals.contains(n) == (left.contains(&n) || right.contains(&n))
}

/// Whether that is so for the numbers from 0 to 39 and three high ones.
fn agrees(intervals: &Intervals, left: &[u32], right: &[u32]) -> bool {
    for n in 0..40 {
        if !agrees_at(intervals, left, right, n) {
            return false;
        }
    }
    agrees_at(intervals, left, right, TOP - 1)
        && agrees_at(intervals, left, right, TOP)
        && agrees_at(intervals, left, right, TOP + 1)
}

/// Whether the union of two lists has the intervals and the numbers of both.
fn unites(
    alloc: Global,
    left: &[u32],
    right: &[u32],
    wanted: &[(u32, u32)],
) -> Result<bool, NoMemory> {
    if !ascends(left) || !ascends(right) {
        return Ok(false);
    }
    let first = Intervals::of(alloc, left)?;
    let second = Intervals::of(alloc, right)?;
    let both = first.union(alloc, &second)?;
    Ok(are(&both, wanted) && agrees(&both, left, right))
}

/// Whether that is so in each row.
fn unite(alloc: Global, rows: &[(&[u32], &[u32], &[(u32, u32)])]) -> Result<bool, NoMemory> {
    for row in rows {
        if !unites(alloc, row.0, row.1, row.2)? {
            return Ok(false);
        }
    }
    Ok(true)
}

#[test]
fn unions_hold_the_numbers_of_both(rt: HostRuntime) {
    assert!(rt; matches!(unite(rt.alloc(), TABLE), Ok(true)));
    assert!(rt; !ascends(&[4, 4]));
    assert!(rt; !ascends(&[5, 4]));
    assert!(rt; !ascends(&[TOP + 1]));
}
