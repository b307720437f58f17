// Runs a crate of facts and rows on an input that it makes or reads, and prints counts. `bench/` times it from outside.
#![tactic(auto)]

mod epoch;
mod join;
mod rows;
mod triples;

use std::process::ExitCode;
use std::{env, io};

/// What may be asked for.
const WORDS: &[&str] = &[triples::WORDS, join::WORDS, rows::WORDS, epoch::WORDS];

fn main(rt: HostRuntime) -> io::Result<ExitCode> {
    let mut words = Vec::new(rt.alloc());
    for word in env::args(&rt)?.skip(1) {
        words.push(word)?;
    }
    let done = match words.first() {
        Some(word) if word.as_str() == "triples" => triples::run(&rt, &words)?,
        Some(word) if word.as_str() == "join" => join::run(&rt, &words)?,
        Some(word) if word.as_str() == "rows" => rows::run(&rt, &words)?,
        Some(word) if word.as_str() == "epoch" => epoch::run(&rt, &words)?,
        _ => false,
    };
    if done {
        return Ok(ExitCode::SUCCESS);
    }
    for line in WORDS {
        eprintln!(rt; "bench_facts {}", *line)?;
    }
    Ok(ExitCode::FAILURE)
}
