ghost use Rattle.std.specs.Prelude.{◌≡◌, ◌≤◌, ◌↔◌, ◌⊎◌, [], length, false, Some, None, IfOk, OnOk, OnErr, IsErr, is_ok, if◌then◌else◌, vec_capacity, replicate};
ghost use Rattle.dl_io.specs.Files.{files_of, file_at, bytes_of, HaveDifferentNames, part_of, with_front};
ghost use Rattle.dl_io.specs.Buffer.{told_bytes, after_piece};
ghost use Rattle.dl_io.specs.Count.{NoneFalls, HasRisen, raised_count};
ghost use Rattle.dl_io.specs.Schedule.{FailsNext, after_call};
ghost use Rattle.dl_io.specs.Shared.{count_of, raised_for};
ghost use Rattle.dl_io.specs.Memory.{FaultyFiles, FaultyBuffer};

use crate::counts::Counts;
use crate::devices::{Failed, Library, Sink};
use crate::failures::Failures;
use crate::safe::{SafeLibrary, SafeSink, copy_part};
use std::marker::Model;

/// Files in memory, some of whose reads are to fail. A read of a name that isn't there fails too.
/// Faults are counted by name, each count up to the last number of 64 bits; names with one checksum
/// share a count, so that counting takes no memory.
#[derive(Drop)]
pub struct MemoryLibrary {
    files: SafeLibrary,
    failures: Failures,
    counts: Counts,
}

impl Model for MemoryLibrary {
    ghost Value = { FaultyFiles };

    ghost view = { λ library.
        record { files = library.files; schedule = library.failures; counts = library.counts } };
}

impl MemoryLibrary {
    /// A library of these files, each with its name. `fails` has the numbers of the calls of `read`
    /// that are to fail, counted from 0.
    pub fn new(files: Vec<(String, Vec<u8>)>, fails: Vec<u64>) -> MemoryLibrary
        requires { HaveDifferentNames (files_of files.items) }
        ensures files { result.files ≡ files_of files.items }
        ensures schedule { result.schedule ≡ record { fails = fails.items; calls = 0 } }
        ensures counts { result.counts ≡ replicate 256 0 }
    {
        MemoryLibrary {
            files: SafeLibrary::new(files),
            failures: Failures::new(fails),
            counts: Counts::new(),
        }
    }
}

impl Library for MemoryLibrary {
    ghost told = { λ library. Some (bytes_of library.files) };

    ghost faults = { λ library. count_of library.counts };

    fn read(&mut self, name: &str, from: u64, buf: &mut [u8]) -> Result<usize, Failed>
        ensures fails { IsErr result ↔
            (FailsNext self.old.schedule ⊎ (file_at self.old.files name.now ≡ None)) }
        ensures ok { IfOk result (λ n.
            n ≡ length (part_of (bytes_of self.old.files name.now) from (length buf.old))) }
        ensures copied { OnOk result (buf.new ≡
            with_front (part_of (bytes_of self.old.files name.now) from (length buf.old)) buf.old) }
        ensures not_copied { OnErr result (buf.new ≡ buf.old) }
        ensures files { self.new.files ≡ self.old.files }
        ensures called { self.new.schedule ≡ after_call self.old.schedule }
        ensures counted { self.new.counts ≡
            (if is_ok result then self.old.counts else raised_for name.now self.old.counts) }
        ensures count { NoneFalls (count_of self.old.counts) (count_of self.new.counts) }
        ensures failed { OnErr result
            (HasRisen (count_of self.old.counts name.now) (count_of self.new.counts name.now)) }
    {
        let fails = self.failures.next();
        match self.files.file(name) {
            Some(file) if !fails => Ok(copy_part(file, from, buf)),
            _ => {
                self.counts.raise(name);
                Err(Failed)
            }
        }
    }
}

/// A sink over a buffer, some of whose writes are to fail. A piece that doesn't fit any more is
/// taken and lost, and from then on the sink tells nothing and keeps nothing more.
#[derive(Drop)]
pub struct MemorySink {
    sink: SafeSink,
    failures: Failures,
    faults: u64,
}

impl Model for MemorySink {
    ghost Value = { FaultyBuffer };

    ghost view = { λ sink.
        record { buffer = sink.sink; schedule = sink.failures; faults = sink.faults } };
}

impl MemorySink {
    /// A sink over an empty buffer, whose capacity is the room. `fails` has the numbers of the calls
    /// of `write` that are to fail, counted from 0.
    pub fn new(buffer: Vec<u8>, fails: Vec<u64>) -> MemorySink
        requires { buffer.items ≡ [] }
        ensures buffer { result.buffer ≡
            record { bytes = []; room = vec_capacity buffer; lost = false } }
        ensures schedule { result.schedule ≡ record { fails = fails.items; calls = 0 } }
        ensures faults { result.faults ≡ 0 }
    {
        MemorySink {
            sink: SafeSink::new(buffer),
            failures: Failures::new(fails),
            faults: 0,
        }
    }

    /// The bytes that the buffer holds: what the sink got, up to the first piece that was lost.
    pub fn bytes(&self) -> &[u8]
        ensures { result.now ≡ self.now.buffer.bytes }
    {
        self.sink.bytes()
    }
}

impl Sink for MemorySink {
    ghost got = { λ sink. told_bytes sink.buffer };

    ghost faults = { λ sink. sink.faults };

    ghost lent = { λ _. None };

    fn write(&mut self, piece: &[u8]) -> Result<usize, Failed>
        ensures fails { IsErr result ↔ FailsNext self.old.schedule }
        ensures ok { IfOk result (λ n. n ≡ length piece.now) }
        ensures taken { OnOk result (self.new.buffer ≡ after_piece self.old.buffer piece.now) }
        ensures not_taken { OnErr result (self.new.buffer ≡ self.old.buffer) }
        ensures called { self.new.schedule ≡ after_call self.old.schedule }
        ensures counted { self.new.faults ≡
            (if is_ok result then self.old.faults else raised_count self.old.faults) }
        ensures count { self.old.faults ≤ self.new.faults }
    {
        if self.failures.next() {
            self.faults = self.faults.saturating_add(1);
            return Err(Failed);
        }
        self.sink.write(piece)
    }
}
