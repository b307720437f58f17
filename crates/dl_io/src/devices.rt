ghost use Rattle.std.specs.Prelude.{ℕ, ◌≡◌, ◌<◌, ◌≤◌, List, [], length, take, IfOk, OnErr, IfSome, Option};
ghost use Rattle.dl_io.specs.Count.{HasRisen, NoneFalls};
ghost use Rattle.dl_io.specs.Lending.{Lender, StaysLent};
ghost use Rattle.dl_io.specs.Reading.{Copies, EndsAt};
ghost use Rattle.dl_io.specs.Writing.{Gets};

use thiserror::Error;

/// The answer of a read or a write that failed. It says nothing of the cause.
#[derive(Clone, Copy, Debug, PartialEq, Eq, Error)]
#[error("reading or writing failed")]
pub struct Failed;

/// Files, each with a name. Reading doesn't change what the library tells.
pub trait Library {
    // The bytes of each name, where the library tells them.
    ghost told: { Self → Option (List ℕ → List ℕ) };
    // How many faults of each name there were so far. No count falls.
    ghost faults: { Self → List ℕ → ℕ };

    /// Copies bytes of a file, from an offset on, to the front of `buf`, and answers how many. For a
    /// buffer that isn't empty the answer is 0 at the end of the file and nowhere else. `Failed`
    /// comes only where the count of faults of this very name rose, or stands at its last value; a
    /// name that can't be opened is such a fault.
    fn read(&mut self, name: &str, from: u64, buf: &mut [u8]) -> Result<usize, Failed>
        ensures fits { IfOk result (λ n. n ≤ length buf.new) }
        ensures copied { IfOk result (λ n.
            IfSome (told self.old) (λ file_of. Copies (file_of name.now) from n buf.new)) }
        ensures end { IfOk result (λ n.
            IfSome (told self.old) (λ file_of. EndsAt (file_of name.now) from n buf.new)) }
        ensures unchanged { told self.new ≡ told self.old }
        ensures count { NoneFalls (faults self.old) (faults self.new) }
        ensures failed { OnErr result
            (HasRisen (faults self.old name.now) (faults self.new name.now)) };
}

/// What takes bytes. A write keeps who lent the sink what it hands on to.
pub trait Sink {
    // The bytes that the sink got so far, where it tells them.
    ghost got: { Self → Option (List ℕ) };
    // How many faults there were so far. The count never falls.
    ghost faults: { Self → ℕ };
    // Who lent the sink the one that it hands on to, if it hands on to one.
    ghost lent: { Self → Option Lender };

    /// Takes the first bytes of a piece, and answers how many: at least one where the piece isn't
    /// empty. `Failed` comes only where the count of faults rose, or stands at its last value. A
    /// sink that failed got nothing of the piece.
    fn write(&mut self, piece: &[u8]) -> Result<usize, Failed>
        ensures fits { IfOk result (λ n. n ≤ length piece.now) }
        ensures some { IfOk result (λ n. 0 < length piece.now → 0 < n) }
        ensures appended { IfOk result (λ n.
            Gets (got self.old) (got self.new) (take n piece.now)) }
        ensures nothing { OnErr result (Gets (got self.old) (got self.new) []) }
        ensures count { faults self.old ≤ faults self.new }
        ensures lent { StaysLent (lent self.old) (lent self.new) }
        ensures failed { OnErr result (HasRisen (faults self.old) (faults self.new)) };
}
