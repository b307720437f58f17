ghost use Rattle.std.specs.Prelude.{ℕ, ◌≡◌, ◌≤◌, ◌<◌, length, None, IfOk, is_ok, if◌then◌else◌};
ghost use Rattle.dl_io.specs.Count.{raised_count};

use crate::devices::{Failed, Sink};
use std::marker::Model;

/// The standard output. It tells no bytes, and counts each write that failed, up to the last number
/// of 64 bits. A write that takes nothing of a piece that isn't empty failed.
#[derive(Drop)]
pub struct OutSink<'a, P: Print> {
    out: &'a P,
    faults: u64,
}

impl<'a, P: Print> Model for OutSink<'a, P> {
    ghost Value = { ℕ };

    ghost view = { λ sink. sink.faults };
}

impl<'a, P: Print> OutSink<'a, P> {
    /// The standard output of a runtime. There was no fault so far.
    pub fn new(out: &'a P) -> OutSink<'a, P>
        ensures { result ≡ 0 }
    {
        OutSink { out, faults: 0 }
    }
}

impl<P: Print> Sink for OutSink<'_, P> {
    ghost got = { λ _. None };

    ghost faults = { λ sink. sink };

    ghost lent = { λ _. None };

    fn write(&mut self, piece: &[u8]) -> Result<usize, Failed>
        ensures fits { IfOk result (λ n. n ≤ length piece.now) }
        ensures some { IfOk result (λ n. 0 < length piece.now → 0 < n) }
        ensures counted { self.new ≡ (if is_ok result then self.old else raised_count self.old) }
        ensures count { self.old ≤ self.new }
    {
        match self.out.write_some(piece) {
            Ok(n) if n > 0 || piece.is_empty() => Ok(n),
            _ => {
                self.faults = self.faults.saturating_add(1);
                Err(Failed)
            }
        }
    }
}
