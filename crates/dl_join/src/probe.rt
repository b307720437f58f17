// Probes as needs: names, repeated variables and probes without variables are dealt with once, before the search.
ghost use Rattle.std.specs.Prelude.{◌≡◌, ℕ, ◌↔◌, ◌==◌, false, filter, IsTrue, IfOk, IfSome, IfNone};
ghost use Rattle.std.specs.List.{Contains};
ghost use Rattle.std.specs.Prelude.{List as Basics};
ghost use Rattle.dl_terms.specs.declared.role.Basic.{Basic};
ghost use Rattle.dl_join.specs.declared.need.Column.TheVariants.{First, Second};
ghost use Rattle.dl_join.specs.Needs.{AreAscending, in_column};
ghost use Rattle.dl_join.specs.Disjuncts.{ProbeHolds};
ghost use Rattle.dl_join.specs.Probing.{IsClosed, kept_pairs, IsNeedOf};

use crate::need::{Column, Need, passed};
use dl_terms::{List, Pair, Probe, Term};
use std::alloc::{AllocError, Global};

/// The pairs whose first name is this one.
fn run_of(pairs: &[Pair], name: u32) -> &[Pair]
    requires { AreAscending First pairs.now }
    ensures members { (p : ℕ × ℕ) → Contains result.now p ↔ (Contains pairs.now p × (p.0 ≡ name)) }
    ensures ascending { AreAscending Second result.now }
{
    let low = passed(pairs, Column::First, u64::from(name));
    let others = &pairs[low..];
    let high = passed(others, Column::First, u64::from(name) + 1);
    &others[..high]
}

/// True where a pair of a run has this second name.
fn has_second(run: &[Pair], name: u32) -> bool
    requires { AreAscending Second run.now }
    ensures found { IsTrue result → (first : ℕ) × Contains run.now (first, name) }
    ensures missed { result ≡ false → (first : ℕ) → Contains run.now (first, name) → ⊥ }
{
    let low = passed(run, Column::Second, u64::from(name));
    match run.get(low) {
        Some(pair) => pair.1 == name,
        None => false,
    }
}

/// True where a probe has no variable and doesn't hold.
pub fn fails(probe: &Probe, pairs: &[Pair]) -> bool
    requires { AreAscending First pairs.now }
    ensures fails { IsTrue result → (names : ℕ → ℕ) → ProbeHolds names pairs.now probe.now → ⊥ }
    ensures holds { result ≡ false → IsClosed probe.now
        → (names : ℕ → ℕ) → ProbeHolds names pairs.now probe.now }
{
    match probe {
        Probe::AnyOf { at, .. } => class_fails(*at, pairs),
        Probe::Joined { from, to, .. } => role_fails(*from, *to, pairs),
    }
}

fn class_fails(at: Term, pairs: &[Pair]) -> bool
    requires { AreAscending First pairs.now }
    ensures fails { IsTrue result → (names : ℕ → ℕ) (basics : Basics Basic)
        → ProbeHolds names pairs.now (Probe.AnyOf basics at) → ⊥ }
    ensures holds { result ≡ false → (names : ℕ → ℕ) (basics : Basics Basic)
        → IsClosed (Probe.AnyOf basics at)
        → ProbeHolds names pairs.now (Probe.AnyOf basics at) }
{
    match at {
        Term::Name(a) => run_of(pairs, a).is_empty(),
        Term::Var(_) => false,
    }
}

fn role_fails(from: Term, to: Term, pairs: &[Pair]) -> bool
    requires { AreAscending First pairs.now }
    ensures fails { IsTrue result → (names : ℕ → ℕ) (role : ℕ)
        → ProbeHolds names pairs.now (Probe.Joined role from to) → ⊥ }
    ensures holds { result ≡ false → (names : ℕ → ℕ) (role : ℕ) → IsClosed (Probe.Joined role from to)
        → ProbeHolds names pairs.now (Probe.Joined role from to) }
{
    let Term::Name(a) = from else {
        return false;
    };
    match to {
        Term::Name(b) => !has_second(run_of(pairs, a), b),
        Term::Var(_) => false,
    }
}

/// Of the pairs of a probe, those with its name behind its variable, or with one name twice where it has its
/// variable twice.
pub fn kept(alloc: Global, probe: &Probe, pairs: &[Pair]) -> Result<List<Pair>, AllocError>
    ensures { IfOk result (λ list. list ≡ kept_pairs pairs.now probe.now) }
{
    match probe {
        Probe::Joined {
            from: Term::Var(_),
            to: Term::Name(b),
            ..
        } => with_second(alloc, pairs, *b),
        Probe::Joined {
            from: Term::Var(v),
            to: Term::Var(w),
            ..
        } => {
            if *v == *w {
                with_one_name(alloc, pairs)
            } else {
                Ok(List::new(alloc))
            }
        }
        _ => Ok(List::new(alloc)),
    }
}

fn with_second(alloc: Global, pairs: &[Pair], name: u32) -> Result<List<Pair>, AllocError>
    ensures { IfOk result (λ list. list ≡ filter (λ p. p.1 == name) pairs.now) }
{
    let kept: Vec<Pair> = pairs
        .iter()
        .copied()
        .filter(|p| p.1 == name)
        .collect(alloc)?;
    Ok(List::of(kept))
}

fn with_one_name(alloc: Global, pairs: &[Pair]) -> Result<List<Pair>, AllocError>
    ensures { IfOk result (λ list. list ≡ filter (λ p. p.0 == p.1) pairs.now) }
{
    let kept: Vec<Pair> = pairs.iter().copied().filter(|p| p.0 == p.1).collect(alloc)?;
    Ok(List::of(kept))
}

/// The need of a probe, over its list or the pairs kept of it. None where it has no variable.
pub fn need_of<'a>(probe: &Probe, pairs: &'a [Pair], kept: &'a [Pair]) -> Option<Need<'a>>
    requires ascending { AreAscending First pairs.now }
    requires kept { kept.now ≡ kept_pairs pairs.now probe.now }
    ensures some { IfSome result (λ need. IsNeedOf probe.now pairs.now need) }
    ensures none { IfNone result (IsClosed probe.now) }
{
    match probe {
        Probe::AnyOf { at, .. } => class_need(*at, pairs),
        Probe::Joined { from, to, .. } => role_need(*from, *to, pairs, kept),
    }
}

fn class_need<'a>(at: Term, pairs: &'a [Pair]) -> Option<Need<'a>>
    requires { AreAscending First pairs.now }
    ensures some { IfSome result (λ need.
        (basics : Basics Basic) → IsNeedOf (Probe.AnyOf basics at) pairs.now need) }
    ensures none { IfNone result ((basics : Basics Basic) → IsClosed (Probe.AnyOf basics at)) }
{
    match at {
        Term::Var(v) => Some(first_need(v, pairs)),
        Term::Name(_) => None,
    }
}

fn role_need<'a>(from: Term, to: Term, pairs: &'a [Pair], kept: &'a [Pair]) -> Option<Need<'a>>
    requires ascending { AreAscending First pairs.now }
    requires kept { (role : ℕ) → kept.now ≡ kept_pairs pairs.now (Probe.Joined role from to) }
    ensures some { IfSome result (λ need. (role : ℕ) → IsNeedOf (Probe.Joined role from to) pairs.now need) }
    ensures none { IfNone result ((role : ℕ) → IsClosed (Probe.Joined role from to)) }
{
    match from {
        Term::Var(v) => Some(role_need_from(v, to, pairs, kept)),
        Term::Name(a) => match to {
            Term::Var(w) => Some(Need {
                at: w,
                other: None,
                column: Column::Second,
                pairs: run_of(pairs, a),
            }),
            Term::Name(_) => None,
        },
    }
}

fn role_need_from<'a>(v: u8, to: Term, pairs: &'a [Pair], kept: &'a [Pair]) -> Need<'a>
    requires ascending { AreAscending First pairs.now }
    requires kept { (role : ℕ) → kept.now ≡ kept_pairs pairs.now (Probe.Joined role (Term.Var v) to) }
    ensures { (role : ℕ) → IsNeedOf (Probe.Joined role (Term.Var v) to) pairs.now result }
{
    match to {
        Term::Name(_) => first_need(v, kept),
        Term::Var(w) => {
            if v == w {
                first_need(v, kept)
            } else {
                Need {
                    at: v,
                    other: Some(w),
                    column: Column::First,
                    pairs,
                }
            }
        }
    }
}

/// The need of a variable's name in the first column.
fn first_need<'a>(var: u8, pairs: &'a [Pair]) -> Need<'a>
    ensures at { result.at ≡ var }
    ensures other { result.other ≡ None }
    ensures column { result.column ≡ First }
    ensures pairs { result.pairs.now ≡ pairs.now }
{
    Need {
        at: var,
        other: None,
        column: Column::First,
        pairs,
    }
}
