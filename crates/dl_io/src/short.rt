ghost use Rattle.std.specs.Prelude.{ℕ, ◌≡◌, List, [], length, take, Some, None, Ok, min, vec_capacity, false};
ghost use Rattle.dl_io.specs.Files.{files_of, bytes_of, HaveDifferentNames, part_of, with_front};
ghost use Rattle.dl_io.specs.Buffer.{Buffer, told_bytes, after_piece};

use crate::devices::{Failed, Library, Sink};
use crate::safe::{SafeLibrary, SafeSink};
use std::marker::Model;

/// Files in memory that give at most one byte a call and never fail. A name that isn't there is an
/// empty file.
#[derive(Drop)]
pub struct ShortLibrary {
    files: SafeLibrary,
}

impl Model for ShortLibrary {
    ghost Value = { List (List ℕ × List ℕ) };

    ghost view = { λ library. library.files };
}

impl ShortLibrary {
    /// A library of these files, each with its name.
    pub fn new(files: Vec<(String, Vec<u8>)>) -> ShortLibrary
        requires { HaveDifferentNames (files_of files.items) }
        ensures { result ≡ files_of files.items }
    {
        ShortLibrary {
            files: SafeLibrary::new(files),
        }
    }
}

impl Library for ShortLibrary {
    ghost told = { λ files. Some (bytes_of files) };

    ghost faults = { λ _ _. 0 };

    fn read(&mut self, name: &str, from: u64, buf: &mut [u8]) -> Result<usize, Failed>
        ensures ok { result ≡
            Ok (length (part_of (bytes_of self.old name.now) from (min 1 (length buf.old)))) }
        ensures copied { buf.new ≡
            with_front (part_of (bytes_of self.old name.now) from (min 1 (length buf.old)))
            buf.old }
        ensures unchanged { self.new ≡ self.old }
    {
        let n = buf.len().min(1);
        self.files.read(name, from, &mut buf[..n])
    }
}

/// A sink over a buffer that takes at most one byte a call and never fails. A byte that doesn't fit
/// any more is taken and lost, and from then on the sink tells nothing.
#[derive(Drop)]
pub struct ShortSink {
    sink: SafeSink,
}

impl Model for ShortSink {
    ghost Value = { Buffer };

    ghost view = { λ sink. sink.sink };
}

impl ShortSink {
    /// A sink over an empty buffer, whose capacity is the room.
    pub fn new(buffer: Vec<u8>) -> ShortSink
        requires { buffer.items ≡ [] }
        ensures { result ≡ record { bytes = []; room = vec_capacity buffer; lost = false } }
    {
        ShortSink {
            sink: SafeSink::new(buffer),
        }
    }

    /// The bytes that the buffer holds: what the sink got, up to the first byte that was lost.
    pub fn bytes(&self) -> &[u8]
        ensures { result.now ≡ self.now.bytes }
    {
        self.sink.bytes()
    }
}

impl Sink for ShortSink {
    ghost got = { λ sink. told_bytes sink };

    ghost faults = { λ _. 0 };

    ghost lent = { λ _. None };

    fn write(&mut self, piece: &[u8]) -> Result<usize, Failed>
        ensures ok { result ≡ Ok (min 1 (length piece.now)) }
        ensures taken { self.new ≡ after_piece self.old (take 1 piece.now) }
    {
        let n = piece.len().min(1);
        self.sink.write(&piece[..n])
    }
}
