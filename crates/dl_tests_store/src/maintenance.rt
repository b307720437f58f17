// What the store answers where rows move between epochs, rows are dropped and epochs are reclaimed.
use crate::history::{A, A_ANN, A_BOB, AA, B, C, Case, all_are_so};
use crate::store::{Asked, Said, Start, Told};

const CASES: [Case; 4] = [
    // Each shard has its own rows; what is left is counted over both.
    (
        Start {
            classes: &[A, B],
            below: &[(A, B)],
            roles: &[],
            facts: &[A_ANN, A_BOB],
            shards: 2,
        },
        &[
            (
                Asked::Commit(&[(true, Said::Class(AA))]),
                Told::Committed(2, 2),
            ),
            (Asked::Migrate(0, 10), Told::Migrated(1, 1)),
            (Asked::Migrate(0, 10), Told::Migrated(0, 1)),
            (Asked::Migrate(1, 10), Told::Migrated(1, 0)),
        ],
    ),
    // A pin keeps the epoch of its version, and without it that epoch is reclaimed.
    (
        Start {
            classes: &[A, B],
            below: &[(A, B)],
            roles: &[],
            facts: &[A_ANN],
            shards: 1,
        },
        &[
            (Asked::Pin, Told::Pinned(1)),
            (
                Asked::Commit(&[(true, Said::Below(B, C))]),
                Told::Committed(2, 2),
            ),
            (Asked::Migrate(0, 10), Told::Migrated(1, 0)),
            (Asked::Reclaim, Told::Reclaimed(&[])),
            (Asked::Unpin, Told::Unpinned(1)),
            (Asked::Reclaim, Told::Reclaimed(&[1])),
            (Asked::Reclaim, Told::Reclaimed(&[])),
        ],
    ),
    // A pin keeps the row of its version, and without it that row is swept.
    (
        Start {
            classes: &[A],
            below: &[],
            roles: &[],
            facts: &[A_ANN],
            shards: 1,
        },
        &[
            (Asked::Pin, Told::Pinned(1)),
            (
                Asked::Commit(&[(false, Said::Fact(A_ANN))]),
                Told::Committed(2, 1),
            ),
            (Asked::Sweep(0, 10), Told::Swept(0, 0)),
            (Asked::Unpin, Told::Unpinned(1)),
            (Asked::Sweep(0, 10), Told::Swept(1, 0)),
        ],
    ),
    // A row keeps the epoch that it carries, and rows are swept a few at a time.
    (
        Start {
            classes: &[A, B],
            below: &[(A, B)],
            roles: &[],
            facts: &[A_ANN, A_BOB],
            shards: 1,
        },
        &[
            (
                Asked::Commit(&[(false, Said::Fact(A_ANN)), (false, Said::Fact(A_BOB))]),
                Told::Committed(2, 1),
            ),
            (
                Asked::Commit(&[(true, Said::Class(AA))]),
                Told::Committed(3, 2),
            ),
            (Asked::Reclaim, Told::Reclaimed(&[])),
            (Asked::Sweep(0, 1), Told::Swept(1, 1)),
            (Asked::Reclaim, Told::Reclaimed(&[])),
            (Asked::Sweep(0, 1), Told::Swept(1, 0)),
            (Asked::Reclaim, Told::Reclaimed(&[1])),
        ],
    ),
];

#[test]
fn what_is_in_use_stays(rt: HostRuntime) {
    assert!(rt; matches!(all_are_so(rt.alloc(), &CASES), Ok(true)));
}
