// The lines of what becomes of commands.
ghost use Rattle.std.specs.Prelude.{◌≡◌, ℕ, length, IfOk, IfSome};
ghost use Rattle.std.specs.Option.{option_copied};
ghost use Rattle.dl_text.specs.NameText.{AreBelow};
ghost use Rattle.dl_stream.specs.Outcomes.{outcome_names, reply_names, IsAtItsPin};

use dl_event::{Answer, AskFault, Looked, Placed, Refusal, Reply};
use dl_names::{NameSet, Names};
use dl_row::{Kind, OPEN, Row};
use dl_stream::{Outcome, print_outcome};
use dl_terms::{Axiom, Basic, NoMemory, Tuples};
use dl_tests_base::axioms::list_of;
use dl_tests_base::files::new_sink;
use std::alloc::Global;

/// The names, in their order.
const NAMES: &[&str] = &["A", "B", "P", "ann", "bob"];

/// What a stream is told without names, as a constant.
enum Told {
    Committed(u32, u32),
    Pinned(u32),
    Unpinned(u32),
    Migrated(u64, u64),
    Swept(u64, u64),
    Refused(Refusal),
}

/// What a stream is told at place 7, and the line of it.
type Line = (Told, &'static str);

const LINES: &[Line] = &[
    (Told::Committed(3, 2), "place 7 commit version 3 epoch 2\n"),
    (Told::Pinned(3), "place 7 pin version 3\n"),
    (Told::Unpinned(3), "place 7 unpin version 3\n"),
    (
        Told::Migrated(10, 4_194_304),
        "place 7 migrate moved 10 left 4194304\n",
    ),
    (Told::Swept(1, 0), "place 7 sweep dropped 1 left 0\n"),
    (
        Told::Refused(Refusal::TooManyAxioms { weight: u64::MAX }),
        "place 7 too many axioms 18446744073709551615\n",
    ),
    (
        Told::Refused(Refusal::TooManyPredicates { count: 4097 }),
        "place 7 too many predicates 4097\n",
    ),
    (
        Told::Refused(Refusal::TooManyEpochs { kept: 64 }),
        "place 7 too many epochs 64\n",
    ),
    (
        Told::Refused(Refusal::Full {
            kept: 4_194_304,
            new: 1,
        }),
        "place 7 full kept 4194304 new 1\n",
    ),
    (
        Told::Refused(Refusal::PinOpen { version: 1 }),
        "place 7 pin open version 1\n",
    ),
    (Told::Refused(Refusal::NoPin), "place 7 no pin\n"),
    (
        Told::Refused(Refusal::NoShard { shard: 9 }),
        "place 7 no shard 9\n",
    ),
];

/// The reply of a row.
fn reply_of(told: &Told) -> Reply
    ensures { (count : ℕ) → AreBelow count (reply_names result) }
{
    match *told {
        Told::Committed(version, epoch) => Reply::Committed { version, epoch },
        Told::Pinned(version) => Reply::Pinned { version },
        Told::Unpinned(version) => Reply::Unpinned { version },
        Told::Migrated(moved, left) => Reply::Migrated { moved, left },
        Told::Swept(dropped, left) => Reply::Swept { dropped, left },
        Told::Refused(refusal) => Reply::Refused(refusal),
    }
}

/// Whether an outcome is printed as this text, where the limit is 2.
fn is_printed(
    alloc: Global,
    outcome: &Outcome,
    pinned: Option<&Placed>,
    names: &Names,
    text: &str,
) -> bool
    requires at_its_pin { IsAtItsPin (option_copied pinned) outcome.now }
    requires named { AreBelow (length names.now) (outcome_names outcome.now) }
{
    let Ok(mut sink) = new_sink(alloc) else {
        return false;
    };
    print_outcome(&mut sink, outcome, pinned, 2, names).is_ok() && sink.bytes() == text.as_bytes()
}

/// Whether each reply has its line.
fn have_their_lines(alloc: Global, names: &Names, lines: &[Line]) -> bool {
    for (told, text) in lines {
        let outcome = Outcome::Placed(Placed {
            place: 7,
            reply: reply_of(told),
        });
        if !is_printed(alloc, &outcome, None, names, text) {
            return false;
        }
    }
    true
}

/// Whether what was reclaimed is printed as this text.
fn is_reclaimed(alloc: Global, names: &Names, ids: &[u32], text: &str) -> Result<bool, NoMemory> {
    let outcome = Outcome::Placed(Placed {
        place: 7,
        reply: Reply::Reclaimed {
            ids: list_of(alloc, ids)?,
        },
    });
    Ok(is_printed(alloc, &outcome, None, names, text))
}

/// What a look at epoch 2 prints of these rows, where one is of epoch 1.
const LOOKED: &str = "\
place 7 look version 3 epoch 2 epochs 2 kept 4 visible 3 old 2
class 1 <A>
class 2 <B>
role 1 <P>
row class 1 <ann>
old 1 role 1 <bob> <ann>
";

/// A row of the class of number 1 by epoch 2, and one of the role of number 1 by epoch 1.
const ROWS: &[Row] = &[
    Row {
        kind: Kind::Class,
        number: 1,
        epoch: 2,
        s: 3,
        o: 3,
        first: 1,
        last: OPEN,
    },
    Row {
        kind: Kind::Role,
        number: 1,
        epoch: 1,
        s: 4,
        o: 3,
        first: 1,
        last: OPEN,
    },
];

/// Whether a look has its lines: counts, names by number, and rows.
fn is_looked(alloc: Global, names: &Names) -> Result<bool, NoMemory>
    requires { length names.now ≡ 5 }
{
    let looked = Looked {
        version: 3,
        epoch: 2,
        epochs: 2,
        kept: 4,
        visible: 3,
        behind: 2,
        classes: list_of(alloc, &[0, 1])?,
        roles: list_of(alloc, &[2])?,
        rows: list_of(alloc, ROWS)?,
    };
    let outcome = Outcome::Placed(Placed {
        place: 7,
        reply: Reply::Looked(looked),
    });
    Ok(is_printed(alloc, &outcome, None, names, LOOKED))
}

/// The pin at place 4 and version 3.
fn pin() -> Placed
    ensures { result.reply ≡ Reply.Pinned 3 }
{
    Placed {
        place: 4,
        reply: Reply::Pinned { version: 3 },
    }
}

/// Whether two answers have their lines.
fn are_answers(alloc: Global, names: &Names) -> Result<bool, NoMemory>
    requires { length names.now ≡ 5 }
{
    let mut tuples = Tuples::new(alloc, 2);
    tuples.push(&[3, 4])?;
    tuples.push(&[4, 3])?;
    let found = Outcome::Asked(Answer::Found { version: 3, tuples });
    Ok(is_printed(
        alloc,
        &found,
        Some(&pin()),
        names,
        "ask place 4 version 3 answers 2\n(<ann>, <bob>)\n(<bob>, <ann>)\n",
    ))
}

/// Whether a broken axiom has its line, and the class without members.
fn are_broken(alloc: Global, names: &Names) -> Result<bool, NoMemory>
    requires { length names.now ≡ 5 }
{
    let stated = Axiom::DisjointClasses(list_of(alloc, &[Basic::Class(0), Basic::Class(1)])?);
    let broken = Outcome::Asked(Answer::Inconsistent {
        version: 3,
        axiom: Some(stated),
    });
    let nothing = Outcome::Asked(Answer::Inconsistent {
        version: 3,
        axiom: None,
    });
    Ok(
        is_printed(
            alloc,
            &broken,
            Some(&pin()),
            names,
            "ask place 4 version 3 inconsistent DisjointClasses(<A> <B>)\n",
        ) && is_printed(
            alloc,
            &nothing,
            Some(&pin()),
            names,
            "ask place 4 version 3 inconsistent owl:Nothing\n",
        ),
    )
}

/// Whether what has no answer and no place has its line.
fn are_without_answer(alloc: Global, names: &Names) -> bool {
    let many = Outcome::AskRefused(AskFault::TooMany { version: 3 });
    let no_pin = Outcome::AskRefused(AskFault::NoPin);
    let no_memory = Outcome::AskRefused(AskFault::NoMemory);
    is_printed(
        alloc,
        &many,
        Some(&pin()),
        names,
        "ask place 4 version 3 more than 2 answers\n",
    ) && is_printed(alloc, &no_pin, None, names, "ask no pin\n")
        && is_printed(alloc, &no_memory, None, names, "ask no memory\n")
        && is_printed(alloc, &Outcome::NoMemory, None, names, "no memory\n")
        && is_printed(alloc, &Outcome::Spent, None, names, "spent\n")
}

/// The names of this file, if they are five.
fn five_names(alloc: Global) -> Result<Option<Names>, NoMemory>
    ensures { IfOk result (λ names. IfSome names (λ five. length five ≡ 5)) }
{
    let mut set = NameSet::new(alloc);
    for text in NAMES {
        let Ok(_) = set.add(text) else {
            return Err(NoMemory);
        };
    }
    let (names, _ranks) = set.freeze()?;
    Ok(if names.len() == 5 { Some(names) } else { None })
}

/// Whether all outcomes have their lines.
fn are_printed(alloc: Global) -> Result<bool, NoMemory> {
    let Some(names) = five_names(alloc)? else {
        return Ok(false);
    };
    Ok(
        have_their_lines(alloc, &names, LINES)
            && is_reclaimed(alloc, &names, &[1, 3], "place 7 reclaim 1 3\n")?
            && is_reclaimed(alloc, &names, &[], "place 7 reclaim none\n")?
            && is_looked(alloc, &names)?
            && are_answers(alloc, &names)?
            && are_broken(alloc, &names)?
            && are_without_answer(alloc, &names),
    )
}

#[test]
fn outcomes_have_their_lines(rt: HostRuntime) {
    assert!(rt; matches!(are_printed(rt.alloc()), Ok(true)));
}
