// A sink that gathers small pieces and hands them on together.
ghost use Rattle.std.specs.Prelude.{◌≡◌, ◌≤◌, ◌+◌, ◌++◌, [], length, drop, vec_len, vec_capacity, IfOk, OnOk, OnErr, IsTrue, not};
ghost use Rattle.dl_io.specs.Count.{HasRisen};
ghost use Rattle.dl_io.specs.Writing.{Gets, GetsPrefix};
ghost use Rattle.dl_io.specs.Gathering.{state_of, Takes, TakesPrefix, all_got, lender_of};
ghost use Rattle.dl_io.specs.Printing.{Prints};

use crate::devices::{Failed, Sink};
use crate::writing::{write_all, write_some};

/// How many bytes are gathered, where the buffer is made for it.
pub const GATHERED: usize = 64 * 1024;

/// A sink that gathers bytes in a buffer, as many as its capacity, and hands them on to another sink
/// when the next ones don't fit. What it got is what that sink got, and then what is gathered. Its
/// writes take no memory. It is a struct of two references, so that a caller's contract can say what
/// its own sink got once this one is done with.
#[derive(Drop)]
pub struct GatheringSink<'a, S: Sink> {
    sink: &'a mut S,
    gathered: &'a mut Vec<u8>,
}

impl<'a, S: Sink> GatheringSink<'a, S> {
    /// A sink that hands on to this one, over an empty buffer, whose capacity is how much is gathered.
    pub fn new(sink: &'a mut S, buffer: &'a mut Vec<u8>) -> GatheringSink<'a, S>
        requires { buffer.old.items ≡ [] }
        ensures same_reference { result.sink.ghost_name ≡ sink.entry.ghost_name }
        ensures sink { result.sink.now ≡ sink.old }
        ensures nothing { result.gathered.now.items ≡ [] }
    {
        GatheringSink {
            sink,
            gathered: buffer,
        }
    }

    /// Takes all of these bytes. Where handing on failed, some first bytes of them were taken.
    pub fn put(&mut self, bytes: &[u8]) -> Result<(), Failed>
        ensures same_reference { self.new.sink.ghost_name ≡ self.old.sink.ghost_name }
        ensures all { OnOk result (Takes (state_of S.got self.old) (state_of S.got self.new) bytes.now) }
        ensures prefix { OnErr result
            (TakesPrefix (state_of S.got self.old) (state_of S.got self.new) bytes.now) }
        ensures count { S.faults self.old.sink.now ≤ S.faults self.new.sink.now }
        ensures failed { OnErr result
            (HasRisen (S.faults self.old.sink.now) (S.faults self.new.sink.now)) }
    {
        if self.make_room(bytes.len())? {
            gather(self.gathered, bytes);
            return Ok(());
        }
        write_all(self.sink, bytes)
    }

    /// Hands on what is gathered. Then nothing is, and the other sink got all that this one got.
    pub fn finish(&mut self) -> Result<(), Failed>
        ensures same_reference { self.new.sink.ghost_name ≡ self.old.sink.ghost_name }
        ensures handed { OnOk result (self.new.gathered.now.items ≡ []) }
        ensures same { Takes (state_of S.got self.old) (state_of S.got self.new) [] }
        ensures room { vec_capacity self.new.gathered.now ≡ vec_capacity self.old.gathered.now }
        ensures count { S.faults self.old.sink.now ≤ S.faults self.new.sink.now }
        ensures failed { OnErr result
            (HasRisen (S.faults self.old.sink.now) (S.faults self.new.sink.now)) }

        // So as a sink it got nothing more.
        ensures printed { Prints (all_got S.got) (λ sink. S.faults sink.sink.now) (lender_of S.got)
            result self.old self.new [] }
    {
        hand_on(self.sink, self.gathered)
    }

    /// Whether so many bytes fit into the buffer, after handing on where they don't. Where they don't
    /// fit even then, nothing is gathered.
    fn make_room(&mut self, len: usize) -> Result<bool, Failed>
        ensures same_reference { self.new.sink.ghost_name ≡ self.old.sink.ghost_name }
        ensures same { Takes (state_of S.got self.old) (state_of S.got self.new) [] }
        ensures fits { IfOk result (λ fits. IsTrue fits →
            vec_len self.new.gathered.now + len ≤ vec_capacity self.new.gathered.now) }
        ensures nothing { IfOk result (λ fits. IsTrue (not fits) →
            self.new.gathered.now.items ≡ []) }
        ensures count { S.faults self.old.sink.now ≤ S.faults self.new.sink.now }
        ensures failed { OnErr result
            (HasRisen (S.faults self.old.sink.now) (S.faults self.new.sink.now)) }
    {
        if len <= self.gathered.capacity() - self.gathered.len() {
            return Ok(true);
        }
        self.finish()?;
        Ok(len <= self.gathered.capacity())
    }
}

/// Appends bytes to a buffer that has room for them.
fn gather(buffer: &mut Vec<u8>, bytes: &[u8])
    requires { vec_len buffer.old + length bytes.now ≤ vec_capacity buffer.old }
    ensures { buffer.new.items ≡ buffer.old.items ++ bytes.now }
{
    buffer.extend_from_slice(bytes).unwrap();
}

/// Writes what a buffer holds, and empties it. Where a write failed, the buffer keeps what the sink
/// didn't get.
fn hand_on<S: Sink>(sink: &mut S, buffer: &mut Vec<u8>) -> Result<(), Failed>
    ensures emptied { OnOk result (buffer.new.items ≡ []) }
    ensures same { Takes (record { got = S.got sink.old; gathered = buffer.old.items })
        (record { got = S.got sink.new; gathered = buffer.new.items }) [] }
    ensures room { vec_capacity buffer.new ≡ vec_capacity buffer.old }
    ensures count { S.faults sink.old ≤ S.faults sink.new }
    ensures failed { OnErr result (HasRisen (S.faults sink.old) (S.faults sink.new)) }
{
    let written = write_some(sink, buffer.as_slice());
    drop_front(buffer, written);
    if buffer.is_empty() {
        return Ok(());
    }
    Err(Failed)
}

/// Takes the first n bytes out of a buffer.
fn drop_front(buffer: &mut Vec<u8>, n: usize)
    requires { n ≤ vec_len buffer.old }
    ensures rest { buffer.new.items ≡ drop n buffer.old.items }
    ensures room { vec_capacity buffer.new ≡ vec_capacity buffer.old }
{
    buffer.drain(..n);
}

impl<S: Sink> Sink for GatheringSink<'_, S> {
    ghost got = { all_got S.got };

    ghost faults = { λ s. S.faults s.sink.now };

    ghost lent = { lender_of S.got };

    fn write(&mut self, piece: &[u8]) -> Result<usize, Failed> {
        if self.make_room(piece.len())? {
            gather(self.gathered, piece);
            return Ok(piece.len());
        }
        self.sink.write(piece)
    }
}
