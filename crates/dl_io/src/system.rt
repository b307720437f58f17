// The files of the system.
ghost use Rattle.std.specs.Prelude.{ℕ, ◌≡◌, ◌≤◌, List, length, None, IfOk, OnErr, is_ok, if◌then◌else◌, replicate};
ghost use Rattle.dl_io.specs.Count.{HasRisen, NoneFalls};
ghost use Rattle.dl_io.specs.Shared.{count_of, raised_for};

use crate::counts::Counts;
use crate::devices::{Failed, Library};
use crate::reached::Reached;
use std::io;
use std::marker::Model;
use std::rt::Files;

/// The files of the system, by their paths. It tells no bytes. The file that was read last stays
/// open, and a read that goes on where the last one ended goes on in it, so a pipe can be read;
/// another name or another offset opens anew. Each read that failed is counted by its name, up to the
/// last number of 64 bits; names with one checksum share a count, so that counting takes no memory.
#[derive(Drop)]
pub struct FileLibrary<'a, R: Files> {
    files: &'a R,
    reached: Option<Reached<R::File>>,
    counts: Counts,
}

impl<'a, R: Files> Model for FileLibrary<'a, R> {
    ghost Value = { List ℕ };

    ghost view = { λ library. library.counts };
}

impl<'a, R: Files> FileLibrary<'a, R> {
    /// The files that a runtime reaches. There was no fault so far.
    pub fn new(files: &'a R) -> FileLibrary<'a, R>
        ensures { result ≡ replicate 256 0 }
    {
        FileLibrary {
            files,
            reached: None,
            counts: Counts::new(),
        }
    }
}

impl<R: Files> Library for FileLibrary<'_, R> {
    ghost told = { λ _. None };

    ghost faults = { λ counts. count_of counts };

    fn read(&mut self, name: &str, from: u64, buf: &mut [u8]) -> Result<usize, Failed>
        ensures fits { IfOk result (λ n. n ≤ length buf.new) }
        ensures counted { self.new ≡
            (if is_ok result then self.old else raised_for name.now self.old) }
        ensures count { NoneFalls (count_of self.old) (count_of self.new) }
        ensures failed { OnErr result
            (HasRisen (count_of self.old name.now) (count_of self.new name.now)) }
    {
        match read_on(self.files, &mut self.reached, name, from, buf) {
            Ok(n) => Ok(n),
            Err(_) => {
                self.counts.raise(name);
                Err(Failed)
            }
        }
    }
}

/// Reads a file from an offset on: in the one that is open, where the last read of this name ended
/// there, and else in one that is opened anew. After a failure none is open.
fn read_on<R: Files>(
    files: &R,
    reached: &mut Option<Reached<R::File>>,
    name: &str,
    from: u64,
    buf: &mut [u8],
) -> io::Result<usize>
    ensures { IfOk result (λ n. n ≤ length buf.new) }
{
    let mut file = match reached.take() {
        Some(file) if file.is_at(name, from) => file,
        _ => Reached::open(files, name, from)?,
    };
    let n = file.read(buf)?;
    *reached = Some(file);
    Ok(n)
}
