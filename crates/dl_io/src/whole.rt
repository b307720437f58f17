ghost use Rattle.std.specs.Prelude.{◌≡◌, ◌+◌, ◌<◌, ◌≤◌, ◌↔◌, length, take, drop, vec_len, IfOk, IfSome, IsErrOf};
ghost use Rattle.dl_io.specs.Count.{HasRisen, NoneFalls};
ghost use Rattle.dl_io.specs.Files.{max_bytes};
ghost use Rattle.dl_io.specs.Reading.{Copies};
ghost use Rattle.dl_io.specs.declared.whole.FileFault.TheVariants.{Failed, NoMemory};

use crate::devices::{self, Library};
use std::alloc::{AllocError, Global};
use thiserror::Error;

/// The longest file that `read_whole` gives, in bytes.
pub const MAX_BYTES: usize = 268_435_456;

/// How many bytes a read of `read_whole` asks for.
const PIECE: usize = 64 * 1024;

/// Why a file wasn't read whole.
#[derive(Clone, Copy, Debug, PartialEq, Eq, Error)]
pub enum FileFault {
    /// A read failed.
    #[error("reading failed")]
    Failed,
    /// The file has more than `MAX_BYTES` bytes.
    #[error("the file is too long")]
    TooLong,
    /// There was no memory for the bytes.
    #[error("no memory")]
    NoMemory,
}

impl From<devices::Failed> for FileFault {
    ghost from_gives = { λ _ fault. fault ≡ Failed };

    fn from(_failed: devices::Failed) -> FileFault {
        FileFault::Failed
    }
}

impl From<AllocError> for FileFault {
    ghost from_gives = { λ _ fault. fault ≡ NoMemory };

    fn from(_refused: AllocError) -> FileFault {
        FileFault::NoMemory
    }
}

/// Reads a file whole, in pieces of 64 KiB into one buffer that grows, each behind what was read.
/// `Failed` comes only where the count of faults of this very name rose, or stands at its last value,
/// and `TooLong` only where the file has more than `MAX_BYTES` bytes, as far as the library tells
/// them. After each answer the library tells what it told before.
pub fn read_whole<L: Library>(
    alloc: Global,
    files: &mut L,
    name: &str,
) -> Result<Vec<u8>, FileFault>
    ensures whole { IfOk result (λ bytes.
        IfSome (L.told files.old) (λ file_of. bytes.items ≡ file_of name.now)) }
    ensures not_too_long { IfOk result (λ bytes. vec_len bytes ≤ max_bytes) }
    ensures too_long { IsErrOf result FileFault.TooLong →
        IfSome (L.told files.old) (λ file_of. max_bytes < length (file_of name.now)) }
    ensures failed { IsErrOf result FileFault.Failed →
        HasRisen (L.faults files.old name.now) (L.faults files.new name.now) }
    ensures unchanged { L.told files.new ≡ L.told files.old }
    ensures count { NoneFalls (L.faults files.old) (L.faults files.new) }
{
    let mut buffer = Vec::new(alloc);
    let mut len = 0usize;
    while len <= MAX_BYTES {
        let n = read_piece(files, name, &mut buffer, len)?;
        if n == 0 {
            buffer.truncate(len);
            return Ok(buffer);
        }
        len += n;
    }
    Err(FileFault::TooLong)
}

/// Reads on behind the first `len` bytes of the buffer, which are the first of the file, and answers
/// how many bytes came: 0 at the end of the file.
fn read_piece<L: Library>(
    files: &mut L,
    name: &str,
    buffer: &mut Vec<u8>,
    len: usize,
) -> Result<usize, FileFault>
    requires within { len ≤ vec_len buffer.old }
    requires in_range { len ≤ max_bytes }
    ensures front { take len buffer.new.items ≡ take len buffer.old.items }
    ensures fits { IfOk result (λ n. len + n ≤ vec_len buffer.new) }
    ensures copied { IfOk result (λ n. IfSome (L.told files.old) (λ file_of.
        Copies (file_of name.now) len n (drop len buffer.new.items))) }
    ensures end { IfOk result (λ n.
        IfSome (L.told files.old) (λ file_of. (n ≡ 0) ↔ (length (file_of name.now) ≤ len))) }
    ensures not_too_long { IsErrOf result FileFault.TooLong → ⊥ }
    ensures failed { IsErrOf result FileFault.Failed →
        HasRisen (L.faults files.old name.now) (L.faults files.new name.now) }
    ensures unchanged { L.told files.new ≡ L.told files.old }
    ensures count { NoneFalls (L.faults files.old) (L.faults files.new) }
{
    buffer.resize(len + PIECE, 0)?;
    let n = files.read(name, len as u64, &mut buffer.as_mut_slice()[len..])?;
    Ok(n)
}
