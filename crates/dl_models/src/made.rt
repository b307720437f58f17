// Finite interpretations made of their parts.
ghost use Rattle.std.specs.Prelude.{ℕ, ◌≡◌, ◌<◌, ◌↔◌, All, IsTrue, MatchOption};
ghost use Rattle.std.specs.List.{AllPairs};
ghost use Rattle.dl_models.specs.Parts.{AreParts, IsMadeOf};

use crate::Interp;
use dl_terms::List;

impl Interp {
    /// The interpretation of these parts, or `None` exactly where they don't make one in this form: it has an element,
    /// all elements are below the size, and the names ascend strictly. It takes no memory.
    pub fn new(
        size: u32,
        names: List<(u32, u32)>,
        classes: List<(u32, u32)>,
        links: List<(u32, u32, u32)>,
    ) -> Option<Interp>
        ensures { MatchOption result (¬ AreParts size names classes links)
            (λ made. AreParts size names classes links × IsMadeOf size names classes links made) }
    {
        let is_one = are_parts(size, names.as_slice(), classes.as_slice(), links.as_slice());
        if !is_one {
            return None;
        }
        Some(Interp {
            size,
            names,
            classes,
            links,
        })
    }
}

/// Whether these are the parts of an interpretation.
fn are_parts(
    size: u32,
    names: &[(u32, u32)],
    classes: &[(u32, u32)],
    links: &[(u32, u32, u32)],
) -> bool
    ensures { IsTrue result ↔ AreParts size names.now classes.now links.now }
{
    if size == 0 {
        return false;
    }
    if !ascend(names) {
        return false;
    }
    if !seconds_are_below(size, names) {
        return false;
    }
    if !seconds_are_below(size, classes) {
        return false;
    }
    ends_are_below(size, links)
}

/// Whether the first parts of pairs ascend strictly.
fn ascend(pairs: &[(u32, u32)]) -> bool
    ensures { IsTrue result ↔ AllPairs (λ p q. p.0 < q.0) pairs.now }
{
    for i in 1..pairs.len() {
        if pairs[i].0 <= pairs[i - 1].0 {
            return false;
        }
    }
    true
}

/// Whether the second part of each pair is below a bound.
fn seconds_are_below(bound: u32, pairs: &[(u32, u32)]) -> bool
    ensures { IsTrue result ↔ All (λ p. p.1 < bound) pairs.now }
{
    for pair in pairs {
        if pair.1 >= bound {
            return false;
        }
    }
    true
}

/// Whether both ends of each link are below a bound.
fn ends_are_below(bound: u32, links: &[(u32, u32, u32)]) -> bool
    ensures { IsTrue result ↔ All (λ l. (l.1 < bound) × (l.2 < bound)) links.now }
{
    for (_, x, y) in links {
        if (*x).max(*y) >= bound {
            return false;
        }
    }
    true
}
