// Words of the written forms as a command of `clap` reads them. Their forms are rows of the program.
use clap::{Arg, Command, Error};
use std::alloc::Global;

/// Words that have a form with three names, the names, and the number of the option.
type Named = (&'static [&'static str], [&'static str; 3], u64);

const ANSWERS: &[Named] = &[
    (&["answer", "o", "d", "q"], ["o", "d", "q"], 10_000),
    (
        &["answer", "o", "d", "q", "--limit", "1"],
        ["o", "d", "q"],
        1,
    ),
    (&["answer", "--limit=7", "o", "d", "q"], ["o", "d", "q"], 7),
    (
        &["answer", "o", "--limit", "1000000", "d", "q"],
        ["o", "d", "q"],
        1_000_000,
    ),
    (
        &["answer", "o", "d", "--limit=00010", "q"],
        ["o", "d", "q"],
        10,
    ),
    (
        &["answer", "10", "limit", "a b"],
        ["10", "limit", "a b"],
        10_000,
    ),
    (
        &["answer", "answer", "answer", "answer", "--limit=0000000002"],
        ["answer", "answer", "answer"],
        2,
    ),
];

const RUNS: &[Named] = &[
    (&["run", "o", "d", "s"], ["o", "d", "s"], 4),
    (&["run", "o", "d", "s", "--shards=64"], ["o", "d", "s"], 64),
    (&["run", "--shards", "1", "o", "d", "s"], ["o", "d", "s"], 1),
];

/// Words of `gen`, and their two numbers.
type Numbers = (&'static [&'static str], u64, u64);

const GENS: &[Numbers] = &[
    (&["gen", "0", "1"], 0, 1),
    (&["gen", "4294967295", "100000"], 4_294_967_295, 100_000),
    (&["gen", "0000000007", "08"], 7, 8),
];

/// Whether a text is a number, or there is none and the number is another one.
fn is_number(text: Option<&str>, number: u64, default: u64) -> bool {
    match text {
        Some(text) => text.parse::<u64>() == Ok(number),
        None => number == default,
    }
}

/// Whether a command of three names with an option reads the words so.
fn clap_reads<'a>(
    alloc: Global,
    option: &'a str,
    words: &'a [&'a str],
    names: &[&str; 3],
    number: u64,
    default: u64,
) -> Result<bool, Error> {
    let command = Command::new(alloc, "quest")
        .arg(Arg::new(alloc, "first").required(true))?
        .arg(Arg::new(alloc, "second").required(true))?
        .arg(Arg::new(alloc, "third").required(true))?
        .arg(Arg::new(alloc, option).long(option))?;
    let matches = command.try_get_matches_from(words)?;
    Ok(
        matches.get_str("first") == Some(names[0])
            && matches.get_str("second") == Some(names[1])
            && matches.get_str("third") == Some(names[2])
            && is_number(matches.get_str(option), number, default),
    )
}

fn clap_reads_all(
    alloc: Global,
    option: &'static str,
    rows: &[Named],
    default: u64,
) -> Result<bool, Error> {
    for (words, names, number) in rows {
        if !clap_reads(alloc, option, words, names, *number, default)? {
            return Ok(false);
        }
    }
    Ok(true)
}

/// Whether a command of two numbers reads the words so.
fn clap_reads_numbers<'a>(
    alloc: Global,
    words: &'a [&'a str],
    number: u64,
    size: u64,
) -> Result<bool, Error> {
    let command = Command::new(alloc, "quest")
        .arg(Arg::new(alloc, "number").required(true))?
        .arg(Arg::new(alloc, "size").required(true))?;
    let matches = command.try_get_matches_from(words)?;
    Ok(
        is_number(matches.get_str("number"), number, number)
            && is_number(matches.get_str("size"), size, size),
    )
}

fn clap_reads_all_numbers(alloc: Global, rows: &[Numbers]) -> Result<bool, Error> {
    for (words, number, size) in rows {
        if !clap_reads_numbers(alloc, words, *number, *size)? {
            return Ok(false);
        }
    }
    Ok(true)
}

#[test]
fn clap_reads_the_same(rt: HostRuntime) {
    assert!(rt;
        matches!(
            clap_reads_all(rt.alloc(), "limit", ANSWERS, 10_000),
            Ok(true)
        )
    );
    assert!(rt; matches!(clap_reads_all(rt.alloc(), "shards", RUNS, 4), Ok(true)));
    assert!(rt; matches!(clap_reads_all_numbers(rt.alloc(), GENS), Ok(true)));
}
