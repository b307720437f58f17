// Facts that are drawn by a linear congruential generator.
ghost use Rattle.std.specs.Prelude.{◌≡◌, ◌<◌, ◌≤◌, IfOk};
ghost use Rattle.dl_stream.specs.Generator.{next_state, drawn, drawn_fact, behind_fact, drawn_facts};

use dl_terms::{Fact, List, NoMemory};
use std::alloc::Global;

const MULTIPLIER: u64 = 6_364_136_223_846_793_005;

const INCREMENT: u64 = 1_442_695_040_888_963_407;

/// A generator of draws, by its state.
#[derive(Drop)]
struct Draws {
    state: u64,
}

impl Draws {
    /// A number below `k`.
    fn below(&mut self, k: u32) -> u32
        requires { 0 < k }
        ensures state { self.new.state ≡ next_state self.old.state }
        ensures number { result ≡ drawn k self.new.state }
        ensures within { result < k }
    {
        self.state = self.state.wrapping_mul(MULTIPLIER).wrapping_add(INCREMENT);
        ((self.state >> 33) % u64::from(k)) as u32
    }

    /// A fact over so many individuals.
    fn fact(&mut self, size: u32) -> Fact
        requires some { 0 < size }
        requires few { size ≤ 100000 }
        ensures state { self.new.state ≡ behind_fact size self.old.state }
        ensures fact { result ≡ drawn_fact size self.old.state }
    {
        if self.below(2) == 0 {
            return Fact::Is {
                class: self.below(32),
                who: 32 + self.below(size),
            };
        }
        Fact::Link {
            role: 32 + size + self.below(8),
            from: 32 + self.below(size),
            to: 32 + self.below(size),
        }
    }
}

/// As many facts as individuals, drawn from a number.
pub(crate) fn generated_facts(alloc: Global, number: u32, size: u32) -> Result<List<Fact>, NoMemory>
    requires some { 0 < size }
    requires few { size ≤ 100000 }
    ensures { IfOk result (λ facts. facts ≡ drawn_facts size number size) }
{
    let mut draws = Draws {
        state: u64::from(number),
    };
    let mut facts = List::new(alloc);
    for _count in 0..size {
        facts.push(draws.fact(size))?;
    }
    Ok(facts)
}
