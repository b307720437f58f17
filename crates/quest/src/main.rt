// The program `quest`: its words, the system's files and the standard output, handed to the commands.
#![tactic(auto)]

use dl_io::{FileLibrary, OutSink};
use dl_run::{Status, quest, without_memory};
use std::alloc::AllocError;
use std::env::{Env, FillError};
use std::process::ExitCode;

fn main(rt: HostRuntime) -> ExitCode {
    let mut files = FileLibrary::new(&rt);
    let mut sink = OutSink::new(&rt);
    let status = match words(&rt) {
        Ok(Some(words)) => quest(rt.alloc(), words.as_slice(), &mut files, &mut sink),
        // A word that is no text is in no written form.
        Ok(None) => quest(rt.alloc(), &[], &mut files, &mut sink),
        Err(_) => without_memory(&mut sink),
    };
    ExitCode::from(status.code())
}

/// The words after the program's name, or None where one of them is no text.
fn words(rt: &(impl Env + AllocGlobal)) -> Result<Option<Vec<String>>, AllocError> {
    let mut words = Vec::new(rt.alloc());
    for i in 1..usize::MAX {
        let Some(bytes) = word(rt, i)? else {
            break;
        };
        let Ok(text) = String::from_utf8(bytes) else {
            return Ok(None);
        };
        words.push(text)?;
    }
    Ok(Some(words))
}

/// The bytes of a word, if there is one of this number. The buffer doubles until they fit.
fn word(rt: &(impl Env + AllocGlobal), number: usize) -> Result<Option<Vec<u8>>, AllocError> {
    let mut bytes = Vec::new(rt.alloc());
    let mut room = 256usize;
    for _ in 0..usize::BITS {
        bytes.resize(room, 0)?;
        match rt.arg(number, bytes.as_mut_slice()) {
            Ok(n) => {
                bytes.truncate(n);
                return Ok(Some(bytes));
            }
            Err(FillError::NotPresent) => return Ok(None),
            Err(FillError::TooLong) => room = room.saturating_add(room),
        }
    }
    Err(AllocError)
}
