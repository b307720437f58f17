// What libraries of files and sinks of bytes do.
ghost use Rattle.std.specs.Prelude.{ℕ, ◌≡◌, ◌≤◌, length, None, Some, IfOk, if◌then◌else◌, bytes_eq, codes};

use dl_io::{
    Failed, FileFault, FileLibrary, GatheringSink, Library, MemorySink, OutSink, SafeLibrary,
    SafeSink, ShortLibrary, ShortSink, Sink, read_whole, write_all,
};
use dl_tests_base::files::{failing_files, files_of};
use std::alloc::{AllocError, Global};
use std::cell::Cell;
use std::fmt::Display;
use std::io::{self, Write};
use std::os::fd::AsRawFd;
use std::rt::Files;
use std::test::Fail;
use std::{fs, process};

/// Two files, one of them empty.
const TWO: [(&str, &str); 2] = [("letters", "abc"), ("empty", "")];

/// The same, and another file of the first name.
const ONE_NAME_TWICE: [(&str, &str); 3] = [("letters", "abc"), ("empty", ""), ("letters", "")];

#[test]
fn tells_names_apart(rt: HostRuntime) {
    assert!(rt; matches!(files_of(rt.alloc(), &TWO), Ok(Some(_))));
    assert!(rt; matches!(files_of(rt.alloc(), &ONE_NAME_TWICE), Ok(None)));
}

/// Whether a file is read whole, with these bytes.
fn reads<L: Library>(alloc: Global, files: &mut L, name: &str, bytes: &str) -> bool {
    match read_whole(alloc, files, name) {
        Ok(read) => read.as_slice() == bytes.as_bytes(),
        Err(_) => false,
    }
}

/// Whether reading a file fails.
fn fails_to_read<L: Library>(alloc: Global, files: &mut L, name: &str) -> bool {
    matches!(read_whole(alloc, files, name), Err(FileFault::Failed))
}

/// Whether both files are read whole, and one that isn't there as an empty one.
fn reads_two<L: Library>(alloc: Global, files: &mut L) -> bool {
    reads(alloc, files, "letters", "abc")
        && reads(alloc, files, "empty", "")
        && reads(alloc, files, "absent", "")
}

/// Whether the two files are read so in memory, also where each read gives one byte.
fn reads_in_memory(alloc: Global) -> Result<bool, AllocError> {
    let (Some(files), Some(again)) = (files_of(alloc, &TWO)?, files_of(alloc, &TWO)?) else {
        return Ok(false);
    };
    Ok(
        reads_two(alloc, &mut SafeLibrary::new(files))
            && reads_two(alloc, &mut ShortLibrary::new(again)),
    )
}

/// The number of the call that fails, the name of a file, and its bytes, or none where reading it fails. The file takes
/// two reads: one for its bytes, and one that finds the end.
const READS: &[(u64, &str, Option<&str>)] = &[
    (0, "letters", None),
    (1, "letters", None),
    (2, "letters", Some("abc")),
    (2, "absent", None),
];

/// Whether a file is read as each row says.
fn are_read(alloc: Global, rows: &[(u64, &str, Option<&str>)]) -> bool {
    for (call, name, bytes) in rows {
        let Ok(Some(mut files)) = failing_files(alloc, &TWO, *call) else {
            return false;
        };
        let is_so = match bytes {
            Some(bytes) => reads(alloc, &mut files, name, bytes),
            None => fails_to_read(alloc, &mut files, name),
        };
        if !is_so {
            return false;
        }
    }
    true
}

#[test]
fn reads_whole_or_fails(rt: HostRuntime) {
    assert!(rt; matches!(reads_in_memory(rt.alloc()), Ok(true)));
    assert!(rt; are_read(rt.alloc(), READS));
}

/// A library of one file of zeros. Every other name fails.
#[derive(Drop)]
struct Zeros {
    len: usize,
    faults: u64,
}

const ZEROS: &str = "zeros";

impl Library for Zeros {
    ghost told = { λ _. None };

    ghost faults = { λ library name. (if bytes_eq name (codes "zeros") then 0 else library.faults) };

    fn read(&mut self, name: &str, from: u64, buf: &mut [u8]) -> Result<usize, Failed> {
        if name == ZEROS {
            return Ok(buf.len().min(self.len.saturating_sub(from as usize)));
        }
        self.faults = self.faults.saturating_add(1);
        Err(Failed)
    }
}

/// Whether so many zeros are read.
fn reads_zeros(alloc: Global, files: &mut Zeros, len: usize) -> bool {
    match read_whole(alloc, files, ZEROS) {
        Ok(zeros) => zeros.len() == len,
        Err(_) => false,
    }
}

// A body that reads another file on the way, as one at 5,000,000 bytes, fails here.
#[test]
fn reads_in_many_pieces_and_no_other_file(rt: HostRuntime) {
    let mut files = Zeros {
        len: 6_000_000,
        faults: 0,
    };
    assert!(rt; reads_zeros(rt.alloc(), &mut files, 6_000_000));
    assert!(rt; files.faults == 0);
    assert!(rt; fails_to_read(rt.alloc(), &mut files, "ones"));
}

/// Writes two texts, and answers whether both were written.
fn writes_two<S: Sink>(sink: &mut S) -> bool {
    write_all(sink, b"abc").is_ok() && write_all(sink, b"de").is_ok()
}

/// The room of a sink, what it keeps of the two texts where pieces fit or are lost, and what of single bytes.
const KEPT: &[(usize, &str, &str)] = &[
    (0, "", ""),
    (2, "", "ab"),
    (3, "abc", "abc"),
    (4, "abc", "abcd"),
    (5, "abcde", "abcde"),
    (9, "abcde", "abcde"),
];

/// Whether sinks keep what each row says.
fn all_keep(alloc: Global, rows: &[(usize, &str, &str)]) -> bool {
    for (room, pieces, bytes) in rows {
        let (Ok(one), Ok(two)) = (
            Vec::with_capacity(alloc, *room),
            Vec::with_capacity(alloc, *room),
        ) else {
            return false;
        };
        let (mut whole, mut single) = (SafeSink::new(one), ShortSink::new(two));
        if !writes_two(&mut whole)
            || !writes_two(&mut single)
            || whole.bytes() != pieces.as_bytes()
            || single.bytes() != bytes.as_bytes()
        {
            return false;
        }
    }
    true
}

/// A sink with room for nine bytes, where the call of this number is to fail.
fn failing_sink(alloc: Global, call: u64) -> Result<MemorySink, AllocError> {
    let buffer = Vec::with_capacity(alloc, 9)?;
    Ok(MemorySink::new(buffer, Vec::from_slice(alloc, &[call])?))
}

/// The number of the call that fails, whether each of the two texts is written, and what is kept.
type Ending = (u64, bool, bool, &'static str);

const ENDINGS: &[Ending] = &[
    (0, false, true, "de"),
    (1, true, false, "abc"),
    (2, true, true, "abcde"),
];

/// Whether the two texts are written as each row says.
fn all_end(alloc: Global, rows: &[Ending]) -> bool {
    for (call, first, second, kept) in rows {
        let Ok(mut sink) = failing_sink(alloc, *call) else {
            return false;
        };
        if write_all(&mut sink, b"abc").is_ok() != *first
            || write_all(&mut sink, b"de").is_ok() != *second
            || sink.bytes() != kept.as_bytes()
        {
            return false;
        }
    }
    true
}

#[test]
fn writes_all_or_fails(rt: HostRuntime) {
    assert!(rt; all_keep(rt.alloc(), KEPT));
    assert!(rt; all_end(rt.alloc(), ENDINGS));
}

/// Puts two texts into a sink that gathers up to so many bytes, and answers whether both were taken,
/// and then whether the rest was handed on.
fn gathers<S: Sink>(alloc: Global, sink: &mut S, room: usize) -> Result<(bool, bool), AllocError> {
    let mut buffer = Vec::with_capacity(alloc, room)?;
    let mut gathering = GatheringSink::new(sink, &mut buffer);
    let taken = writes_two(&mut gathering);
    let handed = gathering.finish().is_ok();
    Ok((taken, handed))
}

/// Whether the two texts come through, gathered up to so many bytes, in so many writes.
fn gathers_in(alloc: Global, room: usize, writes: u64) -> Result<bool, AllocError> {
    let mut sink = failing_sink(alloc, writes)?;
    let (taken, handed) = gathers(alloc, &mut sink, room)?;
    Ok(taken && handed && sink.bytes() == "abcde".as_bytes() && write_all(&mut sink, b"f").is_err())
}

/// Whether they come through up to the write of this number, which fails: these bytes are kept.
fn gathers_up_to(alloc: Global, room: usize, call: u64, kept: &str) -> Result<bool, AllocError> {
    let mut sink = failing_sink(alloc, call)?;
    let (taken, handed) = gathers(alloc, &mut sink, room)?;
    Ok(!(taken && handed) && sink.bytes() == kept.as_bytes())
}

/// For how many bytes there is room, and how many writes the two texts take. With no room each text is handed on at
/// once, with room for one text one of them is.
const GATHERED: &[(usize, u64)] = &[(0, 2), (2, 2), (3, 2), (5, 1), (9, 1)];

/// For how many bytes there is room, the number of the write that fails, and what is kept.
const CUT: &[(usize, u64, &str)] = &[(0, 1, "abc"), (2, 1, "abc"), (5, 0, "")];

fn all_gather(alloc: Global, rows: &[(usize, u64)]) -> bool {
    for (room, writes) in rows {
        if !matches!(gathers_in(alloc, *room, *writes), Ok(true)) {
            return false;
        }
    }
    true
}

fn all_are_cut(alloc: Global, rows: &[(usize, u64, &str)]) -> bool {
    for (room, call, kept) in rows {
        if !matches!(gathers_up_to(alloc, *room, *call, kept), Ok(true)) {
            return false;
        }
    }
    true
}

#[test]
fn gathers_what_fits(rt: HostRuntime) {
    assert!(rt; all_gather(rt.alloc(), GATHERED));
    assert!(rt; all_are_cut(rt.alloc(), CUT));
}

/// A new file of the system with a text: its path.
fn written(rt: &HostRuntime, name: &str, text: &str) -> io::Result<String> {
    let path = format!(in rt.alloc(); "/tmp/dl_io_{name}_{}", process::id(rt.process()))?;
    fs::write(rt, path.as_str(), text)?;
    Ok(path)
}

/// Whether a file of the system is read whole, with these bytes.
fn reads_file(rt: &HostRuntime, path: &str, bytes: &str) -> bool {
    reads(rt.alloc(), &mut FileLibrary::new(rt), path, bytes)
}

/// Whether it is while it is there, and fails once it is removed.
fn reads_and_removes(rt: &HostRuntime, path: &str, bytes: &str) -> io::Result<bool> {
    let read = reads_file(rt, path, bytes);
    fs::remove_file(rt, path)?;
    Ok(read && fails_to_read(rt.alloc(), &mut FileLibrary::new(rt), path))
}

/// Whether a file of the system is read while it is there, and fails afterwards.
fn reaches_a_file(rt: &HostRuntime) -> io::Result<bool> {
    let path = written(rt, "any", "from a file")?;
    reads_and_removes(rt, path.as_str(), "from a file")
}

#[test]
fn reaches_files_of_the_system(rt: HostRuntime) {
    assert!(rt; matches!(reaches_a_file(&rt), Ok(true)));
    assert!(rt; reads_file(&rt, "/dev/null", ""));
}

/// Whether a file of the system is read from these offsets on, one after another, with one byte each.
fn reads_at(files: &mut FileLibrary<'_, HostRuntime>, path: &str, offsets: &[(u64, u8)]) -> bool {
    let mut byte = [0u8; 1];
    for (offset, wanted) in offsets {
        if files.read(path, *offset, &mut byte) != Ok(1) || byte[0] != *wanted {
            return false;
        }
    }
    true
}

/// Whether another offset and another name open anew.
fn goes_on(rt: &HostRuntime, one: &str, two: &str) -> bool {
    let mut files = FileLibrary::new(rt);
    reads_at(
        &mut files,
        one,
        &[(0, b'a'), (1, b'b'), (3, b'd'), (0, b'a')],
    ) && reads_at(&mut files, two, &[(1, b'f'), (2, b'g')])
        && reads_at(&mut files, one, &[(3, b'd')])
}

#[test]
fn goes_on_or_opens_anew(rt: HostRuntime) -> Result<(), Fail> {
    let one = written(&rt, "one", "abcd")?;
    let two = written(&rt, "two", "efgh")?;
    let read = goes_on(&rt, one.as_str(), two.as_str());
    fs::remove_file(&rt, one.as_str())?;
    fs::remove_file(&rt, two.as_str())?;
    assert!(rt; read);
    Ok(())
}

// A pipe is read to its end, which takes a read behind the bytes, and can't be sought.
#[test]
fn reads_a_pipe(rt: HostRuntime) -> Result<(), Fail> {
    let (reader, mut writer) = rt.pipe()?;
    writer.write_all(b"through a pipe")?;
    drop(writer);
    let path = format!(in rt.alloc(); "/dev/fd/{}", reader.as_raw_fd())?;
    assert!(rt; reads_file(&rt, path.as_str(), "through a pipe"));
    Ok(())
}

/// An output that takes at most three bytes a call, notes the last ones, and fails at the call of this number.
#[derive(Drop)]
struct Output {
    taken: Cell<[u8; 3]>,
    calls: Cell<u64>,
    fails: u64,
}

impl Print for Output {
    fn print<D: Display + Drop>(&self, _value: D) -> io::Result<()> {
        Ok(())
    }

    fn println<D: Display + Drop>(&self, _value: D) -> io::Result<()> {
        Ok(())
    }

    fn write_all(&self, _bytes: &[u8]) -> io::Result<()> {
        Ok(())
    }

    fn write_some(&self, bytes: &[u8]) -> io::Result<usize> {
        let call = self.calls.get();
        self.calls.set(call.saturating_add(1));
        if call == self.fails {
            return Ok(0);
        }
        let n = bytes.len().min(3);
        let mut taken = [0u8; 3];
        taken[..n].copy_from_slice(&bytes[..n]);
        self.taken.set(taken);
        Ok(n)
    }
}

/// Whether an output takes a piece in part, and then another one whole.
fn takes_pieces(sink: &mut OutSink<'_, Output>, output: &Output) -> bool {
    sink.write(b"abcd") == Ok(3)
        && output.taken.get() == *b"abc"
        && write_all(sink, b"de").is_ok()
        && output.taken.get() == *b"de\0"
}

/// Whether a call that takes nothing of a piece failed, and the next one goes on.
fn fails_once(sink: &mut OutSink<'_, Output>) -> bool {
    write_all(sink, b"f").is_err() && write_all(sink, b"g").is_ok()
}

#[test]
fn hands_bytes_to_the_output(rt: HostRuntime) {
    let output = Output {
        taken: Cell::new([0; 3]),
        calls: Cell::new(0),
        fails: 2,
    };
    let mut sink = OutSink::new(&output);
    assert!(rt; takes_pieces(&mut sink, &output));
    assert!(rt; fails_once(&mut sink));
}

#[test]
fn reaches_the_standard_output(rt: HostRuntime) {
    assert!(rt; write_all(&mut OutSink::new(&rt), b"written through a sink\n").is_ok());
}
