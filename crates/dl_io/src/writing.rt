ghost use Rattle.std.specs.Prelude.{◌≤◌, ◌<◌, length, take, OnOk, OnErr};
ghost use Rattle.dl_io.specs.Count.{HasRisen};
ghost use Rattle.dl_io.specs.Lending.{StaysLent};
ghost use Rattle.dl_io.specs.Writing.{Gets, GetsPrefix};

use crate::devices::{Failed, Sink};

/// Writes all of these bytes. Where a write failed, the sink got some first bytes of them.
pub fn write_all<S: Sink>(sink: &mut S, bytes: &[u8]) -> Result<(), Failed>
    ensures all { OnOk result (Gets (S.got sink.old) (S.got sink.new) bytes.now) }
    ensures prefix { OnErr result (GetsPrefix (S.got sink.old) (S.got sink.new) bytes.now) }
    ensures count { S.faults sink.old ≤ S.faults sink.new }
    ensures lent { StaysLent (S.lent sink.old) (S.lent sink.new) }
    ensures failed { OnErr result (HasRisen (S.faults sink.old) (S.faults sink.new)) }
{
    if write_some(sink, bytes) < bytes.len() {
        return Err(Failed);
    }
    Ok(())
}

/// Writes these bytes up to the first write that fails, and answers how many the sink got.
pub(crate) fn write_some<S: Sink>(sink: &mut S, bytes: &[u8]) -> usize
    ensures fits { result ≤ length bytes.now }
    ensures got { Gets (S.got sink.old) (S.got sink.new) (take result bytes.now) }
    ensures count { S.faults sink.old ≤ S.faults sink.new }
    ensures lent { StaysLent (S.lent sink.old) (S.lent sink.new) }
    ensures failed { result < length bytes.now → HasRisen (S.faults sink.old) (S.faults sink.new) }
{
    let mut at = 0usize;
    while at < bytes.len() {
        match sink.write(&bytes[at..]) {
            Ok(n) => at += n,
            Err(_) => return at,
        }
    }
    at
}
