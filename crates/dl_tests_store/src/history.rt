// What the store answers to lists of events, and what its roots have then.
use crate::row::{class_row, has, role_row};
use crate::store::{Asked, Said, Shown, Start, Told, after, started};
use dl_core::{LoadFault, Refusal, Root};
use dl_row::{Kind, OPEN, Row};
use dl_terms::Fact;
use std::alloc::Global;

/// The classes A, AA, B and C, the role P and three individuals, in name order.
pub(crate) const A: u32 = 0;

pub(crate) const AA: u32 = 1;

pub(crate) const B: u32 = 2;

pub(crate) const C: u32 = 3;

const P: u32 = 4;

pub(crate) const ANN: u32 = 5;

const BOB: u32 = 6;

const CLEO: u32 = 7;

pub(crate) const A_ANN: Fact = Fact::Is { class: A, who: ANN };

pub(crate) const A_BOB: Fact = Fact::Is { class: A, who: BOB };

const A_CLEO: Fact = Fact::Is {
    class: A,
    who: CLEO,
};

const B_BOB: Fact = Fact::Is { class: B, who: BOB };

/// What is loaded, and what a stream asks for and is told.
pub(crate) type Case = (Start, &'static [(Asked, Told)]);

const CASES: [Case; 5] = [
    // A new class opens an epoch, and all rows are old. B comes before A, which is below it.
    (
        Start {
            classes: &[A, B],
            below: &[(A, B)],
            roles: &[],
            facts: &[A_ANN, A_BOB, A_CLEO],
            shards: 1,
        },
        &[
            (Asked::Pin, Told::Pinned(1)),
            (
                Asked::Commit(&[(true, Said::Class(AA))]),
                Told::Committed(2, 2),
            ),
            (
                Asked::Look(10),
                Told::Looked(Shown {
                    counts: (2, 2, 2, 3, 3, 3),
                    classes: &[AA, B, A],
                    roles: &[],
                    rows: &[
                        class_row!(1, 2, ANN, 1, OPEN),
                        class_row!(1, 2, BOB, 1, OPEN),
                        class_row!(1, 2, CLEO, 1, OPEN),
                    ],
                }),
            ),
            (
                Asked::Look(2),
                Told::Looked(Shown {
                    counts: (2, 2, 2, 3, 3, 3),
                    classes: &[AA, B, A],
                    roles: &[],
                    rows: &[
                        class_row!(1, 2, ANN, 1, OPEN),
                        class_row!(1, 2, BOB, 1, OPEN),
                    ],
                }),
            ),
            // One of the three rows moves.
            (Asked::Migrate(0, 1), Told::Migrated(1, 2)),
            (
                Asked::Look(10),
                Told::Looked(Shown {
                    counts: (2, 2, 2, 3, 3, 2),
                    classes: &[AA, B, A],
                    roles: &[],
                    rows: &[
                        class_row!(1, 2, BOB, 1, OPEN),
                        class_row!(1, 2, CLEO, 1, OPEN),
                        class_row!(2, 3, ANN, 1, OPEN),
                    ],
                }),
            ),
            // A property opens one too, and a removed declaration changes nothing.
            (
                Asked::Commit(&[(true, Said::Property(P))]),
                Told::Committed(3, 3),
            ),
            (
                Asked::Commit(&[(false, Said::Class(AA)), (false, Said::Property(P))]),
                Told::Committed(4, 3),
            ),
            (
                Asked::Look(0),
                Told::Looked(Shown {
                    counts: (4, 3, 3, 3, 3, 3),
                    classes: &[AA, B, A],
                    roles: &[P],
                    rows: &[],
                }),
            ),
        ],
    ),
    // A fact that one commit removes and adds keeps its row. Where two commits do, it gets another.
    (
        Start {
            classes: &[A],
            below: &[],
            roles: &[],
            facts: &[A_ANN],
            shards: 1,
        },
        &[
            (
                Asked::Look(10),
                Told::Looked(Shown {
                    counts: (1, 1, 1, 1, 1, 0),
                    classes: &[A],
                    roles: &[],
                    rows: &[class_row!(1, 1, ANN, 1, OPEN)],
                }),
            ),
            (
                Asked::Commit(&[(false, Said::Fact(A_ANN)), (true, Said::Fact(A_ANN))]),
                Told::Committed(2, 1),
            ),
            (
                Asked::Look(10),
                Told::Looked(Shown {
                    counts: (2, 1, 1, 1, 1, 0),
                    classes: &[A],
                    roles: &[],
                    rows: &[class_row!(1, 1, ANN, 1, OPEN)],
                }),
            ),
            (
                Asked::Commit(&[(false, Said::Fact(A_ANN))]),
                Told::Committed(3, 1),
            ),
            (
                Asked::Commit(&[(true, Said::Fact(A_ANN))]),
                Told::Committed(4, 1),
            ),
            (
                Asked::Look(10),
                Told::Looked(Shown {
                    counts: (4, 1, 1, 2, 1, 0),
                    classes: &[A],
                    roles: &[],
                    rows: &[class_row!(1, 1, ANN, 4, OPEN)],
                }),
            ),
            (Asked::Sweep(0, 10), Told::Swept(1, 0)),
            (Asked::Commit(&[]), Told::Committed(5, 1)),
        ],
    ),
    // A class above another one: the numbers of the new epoch, and those of a load that has both axioms.
    (
        Start {
            classes: &[A, B],
            below: &[(A, B)],
            roles: &[],
            facts: &[A_ANN, B_BOB],
            shards: 1,
        },
        &[
            (
                Asked::Commit(&[(true, Said::Below(B, C))]),
                Told::Committed(2, 2),
            ),
            (
                Asked::Look(10),
                Told::Looked(Shown {
                    counts: (2, 2, 2, 2, 2, 2),
                    classes: &[C, B, A],
                    roles: &[],
                    rows: &[
                        class_row!(1, 1, BOB, 1, OPEN),
                        class_row!(1, 2, ANN, 1, OPEN),
                    ],
                }),
            ),
            (Asked::Migrate(0, 10), Told::Migrated(2, 0)),
            (
                Asked::Look(10),
                Told::Looked(Shown {
                    counts: (2, 2, 2, 2, 2, 0),
                    classes: &[C, B, A],
                    roles: &[],
                    rows: &[
                        class_row!(2, 2, BOB, 1, OPEN),
                        class_row!(2, 3, ANN, 1, OPEN),
                    ],
                }),
            ),
        ],
    ),
    (
        Start {
            classes: &[A, B, C],
            below: &[(A, B), (B, C)],
            roles: &[],
            facts: &[A_ANN, B_BOB],
            shards: 1,
        },
        &[(
            Asked::Look(10),
            Told::Looked(Shown {
                counts: (1, 1, 1, 2, 2, 0),
                classes: &[C, B, A],
                roles: &[],
                rows: &[
                    class_row!(1, 2, BOB, 1, OPEN),
                    class_row!(1, 3, ANN, 1, OPEN),
                ],
            }),
        )],
    ),
    // An unpin without a pin, a pin beside another one, and shards that aren't there.
    (
        Start {
            classes: &[],
            below: &[],
            roles: &[],
            facts: &[],
            shards: 2,
        },
        &[
            (Asked::Unpin, Told::Refused(Refusal::NoPin)),
            (Asked::Pin, Told::Pinned(1)),
            (Asked::Pin, Told::Refused(Refusal::PinOpen { version: 1 })),
            (
                Asked::Migrate(2, 5),
                Told::Refused(Refusal::NoShard { shard: 2 }),
            ),
            (
                Asked::Sweep(9, 1),
                Told::Refused(Refusal::NoShard { shard: 9 }),
            ),
        ],
    ),
];

/// Whether a stream is told what a row says.
fn is_so(alloc: Global, case: &Case) -> Result<bool, LoadFault> {
    let Some(root) = started(alloc, &case.0)? else {
        return Ok(false);
    };
    Ok(after(alloc, root, 1, case.1)?.is_some())
}

/// Whether that is so in each row of a table.
pub(crate) fn all_are_so(alloc: Global, table: &[Case]) -> Result<bool, LoadFault> {
    for case in table {
        if !is_so(alloc, case)? {
            return Ok(false);
        }
    }
    Ok(true)
}

#[test]
fn a_stream_is_told_what_it_asks_for(rt: HostRuntime) {
    assert!(rt; matches!(all_are_so(rt.alloc(), &CASES), Ok(true)));
}

/// Facts in no order, two of them twice.
const SCATTERED: Start = Start {
    classes: &[A],
    below: &[],
    roles: &[P],
    facts: &[
        Fact::Link {
            role: P,
            from: ANN,
            to: B,
        },
        A_ANN,
        Fact::Link {
            role: P,
            from: ANN,
            to: B,
        },
        A_BOB,
        A_ANN,
    ],
    shards: 4,
};

/// Their rows, by shards: the remainders of 5, 5 and 6 by 4.
const LOADED: [&[Row]; 4] = [
    &[],
    &[
        class_row!(1, 1, ANN, 1, OPEN),
        role_row!(1, 1, ANN, B, 1, OPEN),
    ],
    &[class_row!(1, 1, BOB, 1, OPEN)],
    &[],
];

/// One fact goes, and two come.
const CHANGE: [(Asked, Told); 1] = [(
    Asked::Commit(&[
        (
            true,
            Said::Fact(Fact::Link {
                role: P,
                from: CLEO,
                to: ANN,
            }),
        ),
        (false, Said::Fact(A_BOB)),
        (
            true,
            Said::Fact(Fact::Link {
                role: P,
                from: P,
                to: ANN,
            }),
        ),
    ]),
    Told::Committed(2, 1),
)];

/// The rows then.
const CHANGED: [&[Row]; 4] = [
    &[role_row!(1, 1, P, ANN, 2, OPEN)],
    &[
        class_row!(1, 1, ANN, 1, OPEN),
        role_row!(1, 1, ANN, B, 1, OPEN),
    ],
    &[class_row!(1, 1, BOB, 1, 2)],
    &[role_row!(1, 1, CLEO, ANN, 2, OPEN)],
];

/// Whether the shards of a root have these rows.
fn are_shards(root: &Root, shards: &[&[Row]]) -> bool {
    if root.shards() as usize != shards.len() {
        return false;
    }
    for (i, rows) in shards.iter().enumerate() {
        if !has(root.shard(i as u32), rows) {
            return false;
        }
    }
    true
}

/// Whether rows stand in the shards of their first ends, after a load and after a commit.
fn stand_in_shards(alloc: Global) -> Result<bool, LoadFault> {
    let Some(root) = started(alloc, &SCATTERED)? else {
        return Ok(false);
    };
    if root.book().rows != 3 || !are_shards(&root, &LOADED) {
        return Ok(false);
    }
    match after(alloc, root, 1, &CHANGE)? {
        Some(root) => Ok(root.book().rows == 5 && are_shards(&root, &CHANGED)),
        None => Ok(false),
    }
}

#[test]
fn rows_stand_in_the_shard_of_their_first_end(rt: HostRuntime) {
    assert!(rt; matches!(stand_in_shards(rt.alloc()), Ok(true)));
}
