// The test of what a join asks of a head.
ghost use Rattle.std.specs.Prelude.{◌≡◌, ◌↔◌, IsTrue};
ghost use Rattle.std.specs.List.{Any};
ghost use Rattle.dl_join.specs.Disjuncts.{HasVariable, IsSafe};

use dl_terms::{Disjunct, Probe, Term};

/// True exactly where each variable of the head is in a probe.
pub fn is_safe(disjunct: &Disjunct) -> bool
    ensures { IsTrue result ↔ IsSafe disjunct.now }
{
    for term in disjunct.head.as_slice() {
        if let Term::Var(v) = *term {
            if !some_has(disjunct.probes.as_slice(), v) {
                return false;
            }
        }
    }
    true
}

/// True where a probe has a variable.
fn some_has(probes: &[Probe], v: u8) -> bool
    ensures { IsTrue result ↔ Any (HasVariable v) probes.now }
{
    for probe in probes {
        if has(probe, v) {
            return true;
        }
    }
    false
}

fn has(probe: &Probe, v: u8) -> bool
    ensures { IsTrue result ↔ HasVariable v probe.now }
{
    match probe {
        Probe::AnyOf { at, .. } => is_variable(*at, v),
        Probe::Joined { from, to, .. } => {
            if is_variable(*from, v) {
                return true;
            }
            is_variable(*to, v)
        }
    }
}

/// True where a term is a variable.
pub fn is_variable(term: Term, v: u8) -> bool
    ensures { IsTrue result ↔ (term ≡ Term.Var v) }
{
    match term {
        Term::Var(w) => w == v,
        Term::Name(_) => false,
    }
}
