// A file of triples, read into facts.
use dl_names::NameSet;
use dl_triples::read_triples;
use std::rt::Files;
use std::{fs, io};

/// What `run` takes.
pub const WORDS: &str = "triples FILE";

/// Reads the file, and prints counts. False where the words say nothing, or the file has a fault.
pub fn run<R: AllocGlobal + Print + Files>(rt: &R, words: &[String]) -> io::Result<bool> {
    let Some(file) = words.get(1) else {
        return Ok(false);
    };
    let bytes = fs::read(rt, file.as_str())?;
    let mut names = NameSet::new(rt.alloc());
    match read_triples(rt.alloc(), bytes.as_slice(), &mut names) {
        Ok(triples) => {
            println!(rt;
                "bytes {} facts {} skipped {}",
                bytes.len(),
                triples.facts.len(),
                triples.skipped
            )?;
            Ok(true)
        }
        Err(fault) => {
            println!(rt; "{fault}")?;
            Ok(false)
        }
    }
}
