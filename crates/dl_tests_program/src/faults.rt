// The commands where reads and writes fail, where another file would be read, and want of memory.
ghost use Rattle.std.specs.Prelude.{◌≤◌, ◌∷◌, [], length, None, if◌then◌else◌, codes, bytes_eq};
ghost use Rattle.std.specs.List.{list_any};

use crate::run::{ANSWER, Example, SUBCLASS, SUBCLASS_CYCLE, ends};
use crate::spelling::words_of;
use dl_io::{Failed, Library, MemorySink, SafeLibrary, Sink};
use dl_run::{Status, quest};
use dl_tests_base::files::{ROOM, failing_files, files_of, new_sink};
use std::alloc::{AllocError, Global};
use std::test::Fail;

/// One fact, so many times over, as a library that has this one file beside two small ones, and fails
/// for every other name.
#[derive(Drop)]
struct Repeated {
    line: &'static str,
    len: u64,
    faults: u64,
}

/// Copies what stands in repeated lines from an offset on, up to so many bytes in all.
fn copy_lines(line: &str, len: u64, from: u64, buf: &mut [u8]) -> usize
    ensures { result ≤ length buf.new }
{
    let n = len.saturating_sub(from).min(buf.len() as u64) as usize;
    fill(line, from, &mut buf[..n]);
    n
}

/// Fills a buffer with repeated lines from an offset on.
fn fill(line: &str, from: u64, buf: &mut [u8]) {
    for (i, byte) in buf.iter_mut().enumerate() {
        *byte = byte_of(line.as_bytes(), from.saturating_add(i as u64));
    }
}

/// The byte of repeated lines at an offset.
fn byte_of(line: &[u8], offset: u64) -> u8 {
    if line.is_empty() {
        return 0;
    }
    line[(offset % line.len() as u64) as usize]
}

impl Library for Repeated {
    ghost told = { λ _. None };

    ghost faults = { λ library name.
        (if list_any (bytes_eq name)
        (codes "ontology.ofn" ∷ codes "data.nt" ∷ codes "query.q" ∷ [])
        then 0 else library.faults) };

    fn read(&mut self, name: &str, from: u64, buf: &mut [u8]) -> Result<usize, Failed> {
        let (line, len) = match name {
            "ontology.ofn" => ("Ontology()", 10),
            "data.nt" => (self.line, self.len),
            "query.q" => ("q(?x) :- <A>(?x)", 16),
            _ => {
                self.faults = self.faults.saturating_add(1);
                return Err(Failed);
            }
        };
        Ok(copy_lines(line, len, from, buf))
    }
}

// A body that reads another file on the way, as one at 5,000,000 bytes, fails here.
#[test]
fn no_other_file_is_read(rt: HostRuntime) {
    let line = "<a> <http://www.w3.org/1999/02/22-rdf-syntax-ns#type> <A> .\n";
    let mut files = Repeated {
        line,
        len: 100_000 * line.len() as u64,
        faults: 0,
    };
    let output = "facts 1 skipped 0\nanswers 1\n(<a>)\n";
    let ended = ends(rt.alloc(), &mut files, ANSWER, Status::Done, output);
    assert!(rt; matches!(ended, Ok(true)) && files.faults == 0);
}

/// The number of a call that doesn't come.
const NEVER: u64 = u64::MAX;

/// Takes at most so many bytes a call, but at least one, and fails as its sink does.
#[derive(Drop)]
struct Pieces {
    sink: MemorySink,
    most: usize,
}

impl Sink for Pieces {
    ghost got = { λ _. None };

    ghost faults = { λ pieces. pieces.sink.faults };

    ghost lent = { λ _. None };

    fn write(&mut self, piece: &[u8]) -> Result<usize, Failed> {
        let n = piece.len().min(self.most.max(1));
        self.sink.write(&piece[..n])
    }
}

/// A sink that takes at most so many bytes a call, where the write of this number fails.
fn failing_sink(alloc: Global, write: u64, most: usize) -> Result<Pieces, AllocError> {
    let buffer = Vec::with_capacity(alloc, ROOM)?;
    let sink = MemorySink::new(buffer, Vec::from_slice(alloc, &[write])?);
    Ok(Pieces { sink, most })
}

/// Whether the program ends with this status and text for an example where the read of this number fails.
fn read_ends(
    alloc: Global,
    example: &Example,
    read: u64,
    status: Status,
    text: &str,
) -> Result<bool, AllocError> {
    match failing_files(alloc, example.files, read)? {
        Some(mut files) => ends(alloc, &mut files, example.words, status, text),
        None => Ok(false),
    }
}

/// The number of reads up to the first run that none fails: each one before ends as a read fault.
fn failing_reads(alloc: Global, example: &Example) -> Result<Option<u64>, AllocError> {
    for read in 0..NEVER {
        if read_ends(alloc, example, read, example.status, example.output)? {
            return Ok(Some(read));
        }
        if !read_ends(alloc, example, read, Status::ReadFault, "read fault\n")? {
            return Ok(None);
        }
    }
    Ok(None)
}

#[test]
fn each_failing_read_is_a_read_fault(rt: HostRuntime) {
    // Each of the three files is read twice: its bytes, and its end.
    assert!(rt; matches!(failing_reads(rt.alloc(), &SUBCLASS), Ok(Some(6))));
}

/// How a run ends where the write of this number fails: true where it is done with the whole output,
/// false where it is a write fault with a prefix of it, and an empty one for the first write.
fn write_ends(alloc: Global, write: u64, most: usize) -> Result<Option<bool>, AllocError> {
    let Some(mut files) = failing_files(alloc, SUBCLASS.files, NEVER)? else {
        return Ok(None);
    };
    let words = words_of(alloc, SUBCLASS.words)?;
    let mut pieces = failing_sink(alloc, write, most)?;
    let status = quest(alloc, words.as_slice(), &mut files, &mut pieces);
    let (whole, written) = (SUBCLASS.output.as_bytes(), pieces.sink.bytes());
    if status == Status::Done && written == whole {
        return Ok(Some(true));
    }
    let is_part = whole.starts_with(written) && (write > 0 || written.is_empty());
    if status == Status::WriteFault && is_part {
        return Ok(Some(false));
    }
    Ok(None)
}

/// The number of writes up to the first run that none fails: each one before ends as a write fault.
fn failing_writes(alloc: Global, most: usize) -> Result<Option<u64>, AllocError> {
    for write in 0..NEVER {
        match write_ends(alloc, write, most)? {
            Some(true) => return Ok(Some(write)),
            Some(false) => {}
            None => return Ok(None),
        }
    }
    Ok(None)
}

#[test]
fn each_failing_write_is_a_write_fault(rt: HostRuntime) {
    // Gathered, the output is one write, and 34 of single bytes.
    assert!(rt; matches!(failing_writes(rt.alloc(), ROOM), Ok(Some(1))));
    assert!(rt; matches!(failing_writes(rt.alloc(), 1), Ok(Some(34))));
}

/// What one run writes for an example: its output, or that there was no memory; None where it is neither.
fn output_of(alloc: Global, example: &Example) -> Result<Option<&'static str>, AllocError> {
    let Some(files) = files_of(alloc, example.files)? else {
        return Ok(None);
    };
    let words = words_of(alloc, example.words)?;
    let mut sink = new_sink(alloc)?;
    let status = quest(
        alloc,
        words.as_slice(),
        &mut SafeLibrary::new(files),
        &mut sink,
    );
    let output = match status {
        Status::NoMemory => "no memory\n",
        _ => example.output,
    };
    let is_so = status == Status::NoMemory || status == example.status;
    Ok(if is_so && sink.bytes() == output.as_bytes() {
        Some(output)
    } else {
        None
    })
}

// With ample memory both are done, and with one growth refused, as by `rt try --test --fail-alloc N`,
// each ends well or says so. What is printed shows how they ended.
#[test]
fn want_of_memory(rt: HostRuntime) -> Result<(), Fail> {
    let first = output_of(rt.alloc(), &SUBCLASS)?;
    let second = output_of(rt.alloc(), &SUBCLASS_CYCLE)?;
    assert!(rt; first.is_some() && second.is_some());
    print!(rt; "{}", first.unwrap_or(""))?;
    print!(rt; "{}", second.unwrap_or(""))?;
    Ok(())
}
