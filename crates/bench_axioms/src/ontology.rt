// A file of an ontology, read into axioms and facts, or into tokens alone.
use crate::lex::count;
use dl_names::NameSet;
use dl_owl::{OwlFault, read_ontology};
use std::alloc::Global;
use std::rt::Files;
use std::{fs, io};

/// What `run` takes.
pub const WORDS: &str = "ontology read|lex FILE ROUNDS";

/// Reads the file so many times, and prints counts. False where the words say nothing, or the file has a fault.
pub fn run<R: AllocGlobal + Print + Files>(rt: &R, words: &[String]) -> io::Result<bool> {
    let (Some(what), Some(file), Some(rounds)) = (words.get(1), words.get(2), words.get(3)) else {
        return Ok(false);
    };
    let Ok(rounds) = rounds.as_str().parse::<u32>() else {
        return Ok(false);
    };
    let bytes = fs::read(rt, file.as_str())?;
    match what.as_str() {
        "read" => match items(rt.alloc(), bytes.as_slice(), rounds) {
            Ok(items) => println!(rt; "bytes {} items {items}", bytes.len())?,
            Err(fault) => {
                println!(rt; "{fault}")?;
                return Ok(false);
            }
        },
        "lex" => println!(rt;
            "bytes {} tokens {}",
            bytes.len(),
            tokens(bytes.as_slice(), rounds)
        )?,
        _ => return Ok(false),
    }
    Ok(true)
}

/// How many axioms, facts and declarations are read in all rounds.
fn items(alloc: Global, bytes: &[u8], rounds: u32) -> Result<u64, OwlFault> {
    let mut items = 0u64;
    for _ in 0..rounds {
        let mut names = NameSet::new(alloc);
        let document = read_ontology(alloc, bytes, &mut names)?;
        items = items.wrapping_add(document.axioms.len() as u64);
        items = items.wrapping_add(document.facts.len() as u64);
        items = items.wrapping_add(document.classes.len() as u64);
        items = items.wrapping_add(document.roles.len() as u64);
    }
    Ok(items)
}

/// How many tokens are read in all rounds.
fn tokens(bytes: &[u8], rounds: u32) -> u64 {
    let mut tokens = 0u64;
    for _ in 0..rounds {
        tokens = tokens.wrapping_add(count(bytes));
    }
    tokens
}
