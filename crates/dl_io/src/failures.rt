ghost use Rattle.std.specs.Prelude.{◌≡◌, ◌↔◌, IsTrue};
ghost use Rattle.dl_io.specs.Schedule.{Schedule, FailsNext, after_call};

use std::marker::Model;

/// The calls that are to fail, by their numbers, with a count of the calls, which stops at the last
/// number of its type.
#[derive(Drop)]
pub(crate) struct Failures {
    fails: Vec<u64>,
    calls: u64,
}

impl Model for Failures {
    ghost Value = { Schedule };

    ghost view = { λ failures. record { fails = failures.fails.items; calls = failures.calls } };
}

impl Failures {
    /// The calls with these numbers are to fail. There was no call so far.
    pub(crate) fn new(fails: Vec<u64>) -> Failures
        ensures { result ≡ record { fails = fails.items; calls = 0 } }
    {
        Failures { fails, calls: 0 }
    }

    /// Counts a call, and answers whether it is to fail.
    pub(crate) fn next(&mut self) -> bool
        ensures fails { IsTrue result ↔ FailsNext self.old }
        ensures after { self.new ≡ after_call self.old }
    {
        let fails = self.fails.contains(&self.calls);
        self.calls = self.calls.saturating_add(1);
        fails
    }
}
