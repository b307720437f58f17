// Runs a crate of axioms and queries on an input that it makes or reads, and prints counts. `bench/` times it from
// outside.
#![tactic(auto)]

mod disjuncts;
mod hierarchy;
mod lex;
mod ontology;
mod reach;
mod trees;

use std::process::ExitCode;
use std::{env, io};

/// What may be asked for.
const WORDS: &[&str] = &[
    reach::WORDS,
    lex::WORDS,
    ontology::WORDS,
    hierarchy::WORDS,
    trees::WORDS,
    disjuncts::WORDS,
];

fn main(rt: HostRuntime) -> io::Result<ExitCode> {
    let mut words = Vec::new(rt.alloc());
    for word in env::args(&rt)?.skip(1) {
        words.push(word)?;
    }
    let done = match words.first() {
        Some(word) if word.as_str() == "reach" => reach::run(&rt, &words)?,
        Some(word) if word.as_str() == "lex" => lex::run(&rt, &words)?,
        Some(word) if word.as_str() == "ontology" => ontology::run(&rt, &words)?,
        Some(word) if word.as_str() == "hierarchy" => hierarchy::run(&rt, &words)?,
        Some(word) if word.as_str() == "trees" => trees::run(&rt, &words)?,
        Some(word) if word.as_str() == "disjuncts" => disjuncts::run(&rt)?,
        _ => false,
    };
    if done {
        return Ok(ExitCode::SUCCESS);
    }
    for line in WORDS {
        eprintln!(rt; "bench_axioms {}", *line)?;
    }
    Ok(ExitCode::FAILURE)
}
