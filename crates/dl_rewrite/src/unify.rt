// Unification of pairs of terms, one pair after another, by terms that are put for variables.
ghost use Rattle.std.specs.Prelude.{◌≡◌, ℕ, true, false, List, ◌∷◌, length, map, IfOk, MatchOption};
ghost use Rattle.dl_terms.specs.declared.query.Term.{Term as T};
ghost use Rattle.dl_terms.specs.declared.query.Term.TheVariants.{Var, Name as Named};
ghost use Rattle.dl_tree.specs.Each.{IsEach};
ghost use Rattle.dl_rewrite.specs.Unifiers.{put_for, replaced};
ghost use Rattle.dl_rewrite.specs.Steps.{term_at, IsTermBelow, AreMostGeneralUnifier, HaveNoUnifier, AreTermsBelow};

use dl_terms::Term;
use std::alloc::{AllocError, Global};

/// The term that stands for a term.
pub(crate) fn put(to: &[Term], term: Term) -> Term
    ensures { result ≡ put_for (term_at to.now) term }
{
    match term {
        Term::Var(v) => term_at(to, v),
        Term::Name(_) => term,
    }
}

/// The term that is put for a variable.
pub(crate) fn term_at(to: &[Term], v: u8) -> Term
    ensures { result ≡ term_at to.now v }
{
    if (v as usize) < to.len() {
        return to[v as usize];
    }
    Term::Var(v)
}

/// A most general unifier of some pairs, as terms for so many variables, or none where two different names would have
/// to be one.
pub(crate) fn unifier(
    alloc: Global,
    vars: u8,
    pairs: &[(Term, Term)],
) -> Result<Option<Vec<Term>>, AllocError>
    requires { AreTermsBelow vars pairs.now }
    ensures { IfOk result (λ found.
        MatchOption found (HaveNoUnifier pairs.now) (λ to. AreMostGeneralUnifier vars pairs.now to.items)) }
{
    let mut to = unchanged(alloc, vars)?;
    for pair in pairs {
        if !unite(to.as_mut_slice(), *pair) {
            return Ok(None);
        }
    }
    Ok(Some(to))
}

/// Each of so many variables for itself.
fn unchanged(alloc: Global, vars: u8) -> Result<Vec<Term>, AllocError>
    ensures { IfOk result (λ to. IsEach (Named 0) vars (λ v t. t ≡ Var v) to.items) }
{
    let mut to = Vec::new(alloc);
    for v in 0..vars {
        to.push(Term::Var(v))?;
    }
    Ok(to)
}

/// Makes one more pair of terms one; false where two different names would have to be.
fn unite(to: &mut [Term], pair: (Term, Term)) -> bool
    ensures one { result ≡ true → (n : ℕ) (pairs : List (T × T)) → AreMostGeneralUnifier n pairs to.old
        → IsTermBelow n pair.0 → IsTermBelow n pair.1 → AreMostGeneralUnifier n (pair ∷ pairs) to.new }
    ensures apart { result ≡ false → (n : ℕ) (pairs : List (T × T)) → AreMostGeneralUnifier n pairs to.old
        → HaveNoUnifier (pair ∷ pairs) }
{
    let one = put(to, pair.0);
    let other = put(to, pair.1);
    match one {
        Term::Var(v) => {
            replace(to, v, other);
            true
        }
        Term::Name(name) => unite_name(to, name, other),
    }
}

/// Makes a name and a term one; false where the term is a different name.
fn unite_name(to: &mut [Term], name: u32, other: Term) -> bool
    ensures variable { (v : ℕ) → other ≡ Var v → (result ≡ true) × (to.new ≡ map (replaced v (Named name)) to.old) }
    ensures name { (a : ℕ) → other ≡ Named a → (to.new ≡ to.old) × (result ≡ true → name ≡ a)
        × (result ≡ false → name ≡ a → ⊥) }
{
    match other {
        Term::Var(v) => {
            replace(to, v, Term::Name(name));
            true
        }
        Term::Name(a) => name == a,
    }
}

/// Puts a term for a variable in all terms.
fn replace(to: &mut [Term], v: u8, by: Term)
    ensures { to.new ≡ map (replaced v by) to.old }
{
    for term in to.iter_mut() {
        *term = replaced(v, by, *term);
    }
}

fn replaced(v: u8, by: Term, term: Term) -> Term
    ensures { result ≡ replaced v by term }
{
    match term {
        Term::Var(w) => {
            if w == v {
                return by;
            }
            term
        }
        Term::Name(_) => term,
    }
}
