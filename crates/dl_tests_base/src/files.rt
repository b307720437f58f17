// Files and sinks in memory.
ghost use Rattle.std.specs.Prelude.{IfOk, IfSome};
ghost use Rattle.dl_io.specs.Files.{files_of, HaveDifferentNames};

use dl_io::{MemoryLibrary, SafeSink, names_differ};
use std::alloc::{AllocError, Global};

/// Files, each with its name.
pub type NamedFiles = Vec<(String, Vec<u8>)>;

/// Files with these texts, if no two have one name.
pub fn files_of(alloc: Global, texts: &[(&str, &str)]) -> Result<Option<NamedFiles>, AllocError>
    ensures { IfOk result (λ found. IfSome found (λ files. HaveDifferentNames (files_of files.items))) }
{
    let mut files = Vec::new(alloc);
    for (name, text) in texts {
        let name = String::from_str(alloc, name)?;
        files.push((name, Vec::from_slice(alloc, text.as_bytes())?))?;
    }
    Ok(if names_differ(files.as_slice()) {
        Some(files)
    } else {
        None
    })
}

/// Files in memory, where the read of this number fails.
pub fn failing_files(
    alloc: Global,
    texts: &[(&str, &str)],
    read: u64,
) -> Result<Option<MemoryLibrary>, AllocError> {
    match files_of(alloc, texts)? {
        Some(files) => Ok(Some(MemoryLibrary::new(files, Vec::from_slice(alloc, &[read])?))),
        None => Ok(None),
    }
}

/// How many bytes a sink has room for.
pub const ROOM: usize = 1 << 20;

/// A sink with room for an output.
pub fn new_sink(alloc: Global) -> Result<SafeSink, AllocError> {
    Ok(SafeSink::new(Vec::with_capacity(alloc, ROOM)?))
}
