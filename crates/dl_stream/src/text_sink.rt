// A sink that keeps what it got.
ghost use Rattle.std.specs.Prelude.{◌≡◌, [], Some, None};

use dl_io::{Failed, Sink};
use std::alloc::Global;

/// A sink that keeps what it got. A write fails only for want of memory.
#[derive(Drop)]
pub(crate) struct TextSink {
    bytes: Vec<u8>,
    faults: u64,
}

impl TextSink {
    /// A sink that got nothing so far.
    pub(crate) fn new(alloc: Global) -> TextSink
        ensures { result.bytes.items ≡ [] }
    {
        TextSink {
            bytes: Vec::new(alloc),
            faults: 0,
        }
    }

    /// What it got.
    pub(crate) fn into_bytes(self) -> Vec<u8>
        ensures { result.items ≡ self.bytes.items }
    {
        self.bytes
    }
}

impl Sink for TextSink {
    ghost got = { λ sink. Some sink.bytes.items };

    ghost faults = { λ sink. sink.faults };

    ghost lent = { λ _. None };

    fn write(&mut self, piece: &[u8]) -> Result<usize, Failed> {
        match self.bytes.extend_from_slice(piece) {
            Ok(()) => Ok(piece.len()),
            Err(_refused) => {
                self.faults = self.faults.saturating_add(1);
                Err(Failed)
            }
        }
    }
}
