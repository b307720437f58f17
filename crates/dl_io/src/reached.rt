// A file that is open, with its name and the offset that reading has reached.
ghost use Rattle.std.specs.Prelude.{◌≤◌, length, IfOk};

use std::fs;
use std::io::{self, Read, Seek, SeekFrom};
use std::rt::Files;

/// The longest name that is kept, in bytes. The system opens no longer one.
const NAME_ROOM: usize = 4096;

/// An open file. A name that is longer than its room is kept as none.
#[derive(Drop)]
pub(crate) struct Reached<F> {
    file: F,
    name: [u8; NAME_ROOM],
    name_len: usize,
    offset: u64,
}

impl<F: Read + Seek + Drop> Reached<F> {
    /// Opens a file to read from an offset on. Only an offset other than 0 is sought, since a pipe has
    /// no other.
    pub(crate) fn open<R: Files<File = F>>(
        files: &R,
        name: &str,
        offset: u64,
    ) -> io::Result<Reached<F>> {
        let mut file = fs::open(files, name)?;
        if offset > 0 {
            file.seek(SeekFrom::Start(offset))?;
        }
        let mut kept = [0u8; NAME_ROOM];
        let name_len = copy_name(name.as_bytes(), &mut kept);
        Ok(Reached {
            file,
            name: kept,
            name_len,
            offset,
        })
    }

    /// Whether this is the file of this name, read up to this offset.
    pub(crate) fn is_at(&self, name: &str, offset: u64) -> bool {
        self.offset == offset
            && self.name_len > 0
            && self.name.get(..self.name_len) == Some(name.as_bytes())
    }

    /// Reads on.
    pub(crate) fn read(&mut self, buf: &mut [u8]) -> io::Result<usize>
        ensures { IfOk result (λ n. n ≤ length buf.new) }
    {
        let n = self.file.read(buf)?;
        self.offset = self.offset.saturating_add(n as u64);
        Ok(n)
    }
}

/// Copies a name to the front of its room, and answers its length, or 0 where there is no room.
fn copy_name(name: &[u8], room: &mut [u8]) -> usize {
    if name.len() > room.len() {
        return 0;
    }
    room[..name.len()].copy_from_slice(name);
    name.len()
}
