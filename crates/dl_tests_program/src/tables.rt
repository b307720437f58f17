// Tables of one line for each row, `TEXT => WHAT IS SAID`: texts with a fault, and words with their form.
use crate::rows::{Row, ends};
use crate::spelling::{spell, words_of};
use dl_run::{Form, form_of};
use std::alloc::{AllocError, Global};
use std::io;

/// The files of the command, and what stands in them where the row is of another one.
const FILES: &[(&str, &str)] = &[("o", "Ontology()"), ("d", ""), ("q", "q(?x) :- <A>(?x)")];

/// How many texts are refused as their lines say, each as this file of the command; the other lines are printed.
pub(crate) fn refused(rt: &HostRuntime, file: &str, text: &str) -> io::Result<u32> {
    let mut count = 0u32;
    for line in text.lines() {
        if !line.contains(" => ") {
            continue;
        }
        if ends(rt, row_of(rt.alloc(), file, line)?)? {
            count = count.saturating_add(1);
        } else {
            println!(rt; "NOT as expected: {line}")?;
        }
    }
    Ok(count)
}

/// The row of a line: `|` in the text marks where its fault is, and `{}` in what is said is that offset.
fn row_of(alloc: Global, file: &str, line: &str) -> Result<Row, AllocError> {
    let (text, told) = line.split_once(" => ").unwrap_or((line, ""));
    let (front, rest) = text.split_once('|').unwrap_or((text, ""));
    let mut bytes = Vec::new(alloc);
    spell(front, "", &mut bytes)?;
    let place = bytes.len().to_string(alloc)?;
    spell(rest, "", &mut bytes)?;
    let mut said = Vec::from_slice(alloc, b"refused: ")?;
    spell(told, place.as_str(), &mut said)?;
    said.push(b'\n')?;
    Ok(Row {
        words: words_of(alloc, "answer o d q")?,
        files: files_with(alloc, file, bytes.as_slice())?,
        status: String::from_str(alloc, "2")?,
        said,
    })
}

/// The files of the command, of which one has these bytes.
fn files_with(
    alloc: Global,
    file: &str,
    bytes: &[u8],
) -> Result<Vec<(String, Vec<u8>)>, AllocError> {
    let mut files = Vec::new(alloc);
    for (name, text) in FILES {
        let bytes = if *name == file {
            bytes
        } else {
            text.as_bytes()
        };
        files.push((
            String::from_str(alloc, name)?,
            Vec::from_slice(alloc, bytes)?,
        ))?;
    }
    Ok(files)
}

/// How many words have the form that their lines say; the other lines are printed.
pub(crate) fn formed(rt: &HostRuntime, text: &str) -> io::Result<u32> {
    let mut count = 0u32;
    for line in text.lines() {
        let Some((words, form)) = line.split_once(" => ") else {
            continue;
        };
        if form_text(rt.alloc(), words_of(rt.alloc(), words)?.as_slice())?.as_str() == form {
            count = count.saturating_add(1);
        } else {
            println!(rt; "NOT as expected: {line}")?;
        }
    }
    Ok(count)
}

/// The form of words as a text, names in brackets.
fn form_text(alloc: Global, words: &[String]) -> Result<String, AllocError> {
    match form_of(words) {
        Form::Answer(it) => {
            let pieces = ["answer <", it.ontology, "> <", it.facts, "> <", it.query];
            text_of(alloc, &pieces, "> ", it.limit)
        }
        Form::Run(it) => {
            let pieces = ["run <", it.ontology, "> <", it.facts, "> <", it.streams];
            text_of(alloc, &pieces, "> ", it.shards)
        }
        Form::Gen(it) => {
            let number = it.number.to_string(alloc)?;
            text_of(alloc, &["gen ", number.as_str()], " ", it.size)
        }
        Form::Usage => String::from_str(alloc, "usage"),
    }
}

/// The pieces one after another, then one more and a number.
fn text_of(alloc: Global, pieces: &[&str], last: &str, number: u64) -> Result<String, AllocError> {
    let mut text = String::new(alloc);
    for piece in pieces {
        text.push_str(piece)?;
    }
    text.push_str(last)?;
    text.push_str(number.to_string(alloc)?.as_str())?;
    Ok(text)
}
