// Rows of the whole program: words, files and how it ends. The head of a file of rows says how one is written.
use crate::spelling::{bytes_of, words_of};
use dl_io::{MemoryLibrary, SafeSink, ShortLibrary, ShortSink, names_differ};
use dl_run::quest;
use std::alloc::{AllocError, Global};
use std::io;

/// How many bytes a sink has room for.
const ROOM: usize = 1 << 20;

/// From how many bytes on a file is long.
const LONG: usize = 10_000;

/// The words, the files with their names, and how the program ends: its exit status, and what it writes.
#[derive(Drop)]
pub(crate) struct Row {
    pub words: Vec<String>,
    pub files: Vec<(String, Vec<u8>)>,
    pub status: String,
    pub said: Vec<u8>,
}

/// Runs each row of a file, and prints its name.
pub(crate) fn run_all(rt: &HostRuntime, text: &str) -> io::Result<()> {
    for row in text.split("\n== ").skip(1) {
        let (title, parts) = row.split_once("\n-- ").unwrap_or((row, ""));
        let (name, words) = title.split_once(": ").unwrap_or((title, ""));
        let told = if is_so(rt, words, parts)? {
            "as expected"
        } else {
            "NOT as expected"
        };
        println!(rt; "{name}: {told}")?;
    }
    Ok(())
}

/// Whether the program ends as a row says, in one piece and, where no file is long, by single bytes.
fn is_so(rt: &HostRuntime, words: &str, parts: &str) -> io::Result<bool> {
    let row = row_of(rt.alloc(), words, parts)?;
    if is_long(row.files.as_slice()) {
        return ends(rt, row);
    }
    Ok(ends(rt, row)? && ends_by_bytes(rt.alloc(), row_of(rt.alloc(), words, parts)?)?)
}

/// The row of words and parts.
fn row_of(alloc: Global, words: &str, parts: &str) -> Result<Row, AllocError> {
    let mut row = Row {
        words: words_of(alloc, words)?,
        files: Vec::new(alloc),
        status: String::new(alloc),
        said: Vec::new(alloc),
    };
    for part in parts.split("\n-- ") {
        let (title, lines) = part.split_once('\n').unwrap_or((part, ""));
        add(alloc, &mut row, title, bytes_of(alloc, lines)?)?;
    }
    Ok(row)
}

/// Adds a part to a row: how it ends, or a file.
fn add(alloc: Global, row: &mut Row, title: &str, bytes: Vec<u8>) -> Result<(), AllocError> {
    match title.strip_prefix("status ") {
        Some(status) => {
            row.status.push_str(status)?;
            row.said = bytes;
        }
        None => row.files.push((String::from_str(alloc, title)?, bytes))?,
    }
    Ok(())
}

/// Whether the program ends as the row says, over files in memory of which no two have one name. A file that the row
/// lacks can't be read. What it writes instead is printed.
pub(crate) fn ends(rt: &HostRuntime, row: Row) -> io::Result<bool> {
    if !names_differ(row.files.as_slice()) {
        return Ok(false);
    }
    let mut files = MemoryLibrary::new(row.files, Vec::new(rt.alloc()));
    let mut sink = SafeSink::new(Vec::with_capacity(rt.alloc(), ROOM)?);
    let status = quest(rt.alloc(), row.words.as_slice(), &mut files, &mut sink);
    let status = status.code().to_string(rt.alloc())?;
    let is_so = status == row.status && sink.bytes() == row.said.as_slice();
    if !is_so {
        println!(rt; "status {status}")?;
        rt.write_all(sink.bytes())?;
    }
    Ok(is_so)
}

/// Whether it does where files are read and texts are written one byte at a time. There a file that the row lacks is an
/// empty one, so a read fault isn't tried.
fn ends_by_bytes(alloc: Global, row: Row) -> Result<bool, AllocError> {
    if row.status.as_str() == "3" {
        return Ok(true);
    }
    if !names_differ(row.files.as_slice()) {
        return Ok(false);
    }
    let mut files = ShortLibrary::new(row.files);
    let mut sink = ShortSink::new(Vec::with_capacity(alloc, ROOM)?);
    let status = quest(alloc, row.words.as_slice(), &mut files, &mut sink);
    let status = status.code().to_string(alloc)?;
    Ok(status == row.status && sink.bytes() == row.said.as_slice())
}

/// Whether one of the files is long.
fn is_long(files: &[(String, Vec<u8>)]) -> bool {
    for file in files {
        if file.1.len() > LONG {
            return true;
        }
    }
    false
}
