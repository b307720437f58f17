ghost use Rattle.std.specs.Prelude.{ℕ, ◌≡◌, ◌≤◌, List, [], length, Option, Some, None, Ok, vec_capacity, option_copied, false};
ghost use Rattle.dl_io.specs.Files.{files_of, file_at, bytes_of, HaveDifferentNames, part_of, with_front};
ghost use Rattle.dl_io.specs.Buffer.{Buffer, told_bytes, after_piece};

use crate::devices::{Failed, Library, Sink};
use std::marker::Model;

/// Files in memory that never fail to be read. A name that isn't there is an empty file.
#[derive(Drop)]
pub struct SafeLibrary {
    files: Vec<(String, Vec<u8>)>,
}

impl Model for SafeLibrary {
    ghost Value = { List (List ℕ × List ℕ) };

    ghost view = { λ library. files_of library.files.items };
}

impl SafeLibrary {
    /// A library of these files, each with its name.
    pub fn new(files: Vec<(String, Vec<u8>)>) -> SafeLibrary
        requires { HaveDifferentNames (files_of files.items) }
        ensures { result ≡ files_of files.items }
    {
        SafeLibrary { files }
    }

    /// The bytes of the file of this name, if there is one.
    pub(crate) fn file(&self, name: &str) -> Option<&[u8]>
        ensures { option_copied result ≡ file_at self.now name.now }
    {
        for file in &self.files {
            if name == file.0.as_str() {
                return Some(file.1.as_slice());
            }
        }
        None
    }
}

impl Library for SafeLibrary {
    ghost told = { λ files. Some (bytes_of files) };

    ghost faults = { λ _ _. 0 };

    fn read(&mut self, name: &str, from: u64, buf: &mut [u8]) -> Result<usize, Failed>
        ensures ok { result ≡
            Ok (length (part_of (bytes_of self.old name.now) from (length buf.old))) }
        ensures copied { buf.new ≡
            with_front (part_of (bytes_of self.old name.now) from (length buf.old)) buf.old }
        ensures unchanged { self.new ≡ self.old }
    {
        let file = self.file(name).unwrap_or(&[]);
        Ok(copy_part(file, from, buf))
    }
}

/// Copies what stands in a file from a place on to the front of `buf`, and answers how many bytes.
pub(crate) fn copy_part(file: &[u8], from: u64, buf: &mut [u8]) -> usize
    ensures count { result ≡ length (part_of file.now from (length buf.old)) }
    ensures copied { buf.new ≡ with_front (part_of file.now from (length buf.old)) buf.old }
{
    let start = file.len().min(from as usize);
    let n = buf.len().min(file.len() - start);
    buf[..n].copy_from_slice(&file[start..start + n]);
    n
}

/// A sink over a buffer, which never fails. A piece that doesn't fit any more is taken and lost, and
/// from then on the sink tells nothing and keeps nothing more.
#[derive(Drop)]
pub struct SafeSink {
    buffer: Vec<u8>,
    room: usize,
    lost: bool,
}

impl Model for SafeSink {
    ghost Value = { Buffer };

    ghost view = { λ sink.
        record { bytes = sink.buffer.items; room = sink.room; lost = sink.lost } };

    ghost invariant = { λ sink.
        (sink.room ≤ vec_capacity sink.buffer) × (length sink.buffer.items ≤ sink.room) };
}

impl SafeSink {
    /// A sink over an empty buffer, whose capacity is the room.
    pub fn new(buffer: Vec<u8>) -> SafeSink
        requires { buffer.items ≡ [] }
        ensures { result ≡ record { bytes = []; room = vec_capacity buffer; lost = false } }
    {
        let room = buffer.capacity();
        SafeSink {
            buffer,
            room,
            lost: false,
        }
    }

    /// The bytes that the buffer holds: what the sink got, up to the first piece that was lost.
    pub fn bytes(&self) -> &[u8]
        ensures { result.now ≡ self.now.bytes }
    {
        self.buffer.as_slice()
    }
}

impl Sink for SafeSink {
    ghost got = { λ sink. told_bytes sink };

    ghost faults = { λ _. 0 };

    ghost lent = { λ _. None };

    fn write(&mut self, piece: &[u8]) -> Result<usize, Failed>
        ensures ok { result ≡ Ok (length piece.now) }
        ensures taken { self.new ≡ after_piece self.old piece.now }
    {
        let free = self.room - self.buffer.len();
        if !self.lost && piece.len() <= free {
            self.buffer.extend_from_slice(piece).unwrap();
        } else {
            self.lost = true;
        }
        Ok(piece.len())
    }
}
