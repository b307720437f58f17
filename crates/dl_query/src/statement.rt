// The atoms of a query text.
ghost use Rattle.std.specs.Prelude.{◌≡◌, ◌≢◌, ◌<◌, ◌≤◌, ℕ, List, length, true, false, IfOk, IfErr, OnOk, OnErr};
ghost use Rattle.dl_names.specs.NameList.{Text, max_names, names_after, place_of, Extends, has_no_place};
ghost use Rattle.dl_terms.specs.declared.query.Term.{Term};
ghost use Rattle.dl_terms.specs.declared.query.Atom.{Atom};
ghost use Rattle.dl_query.specs.Grammar.{met, with_atom};
ghost use Rattle.dl_query.specs.Steps.{Expected, predicate, terms_opening, body_more, goes, term_move};
ghost use Rattle.dl_query.specs.Parts.{next_symbol, next_at, Passes, Leads, Stops, Refuses, term_of, atom_of, IsBelow, AreBelow};

use crate::QueryFault;
use crate::token::{Mark, Token};
use crate::tokens::Tokens;
use crate::variables::Variables;
use dl_names::{NameFault, NameSet, is_free, may_be_class};

/// A term: a variable by its number, or a name by its place.
#[derive(Clone, Copy)]
pub(crate) enum Reference {
    Variable(usize),
    Name(u32),
}

/// An atom, whose variables have any numbers.
#[derive(Clone, Copy)]
pub(crate) enum Statement {
    Is {
        class: u32,
        at: Reference,
    },
    Link {
        role: u32,
        from: Reference,
        to: Reference,
    },
}

/// A class or role by the place of its name.
#[derive(Clone, Copy)]
pub(crate) struct Predicate {
    place: u32,
    /// Whether it may be a role.
    is_role: bool,
}

/// The next atom.
pub(crate) fn read_statement<'a>(
    tokens: &mut Tokens<'a>,
    variables: &mut Variables<'a>,
    names: &mut NameSet,
) -> Result<Statement, QueryFault>
    ensures ok { IfOk result (λ s. (head : List ℕ) (atoms : List Atom) →
        Leads predicate (met variables.old names.old head atoms) tokens.old
        body_more (with_atom (met variables.new names.new head atoms) (atom_of s)) tokens.new) }
    ensures stops { IfErr result (λ fault. (head : List ℕ) (atoms : List Atom) →
        Stops predicate (met variables.old names.old head atoms) tokens.old fault names.new) }
    ensures below { IfOk result (AreBelow (length variables.new)) }
    ensures more { OnOk result (length variables.old ≤ length variables.new) }
    ensures shorter { OnOk result (length tokens.new.rest.now < length tokens.old.rest.now) }
    ensures fits { OnOk result (length names.new ≤ max_names) }
    ensures grows { Extends names.old names.new }
{
    let predicate = read_predicate(tokens, names)?;
    tokens.expect(Mark::Opening)?;
    let first = read_term(tokens, variables, names)?;
    let Some(at) = tokens.comma_or(Mark::Closing)? else {
        return Ok(Statement::Is {
            class: predicate.place,
            at: first,
        });
    };
    if !predicate.is_role {
        return Err(QueryFault::Reserved { at });
    }
    let second = read_term(tokens, variables, names)?;
    tokens.expect(Mark::Closing)?;
    Ok(Statement::Link {
        role: predicate.place,
        from: first,
        to: second,
    })
}

/// The class or role that stands next.
fn read_predicate(tokens: &mut Tokens<'_>, names: &mut NameSet) -> Result<Predicate, QueryFault>
    ensures ok { IfOk result (λ p. (variables : List Text) (head : List ℕ) (atoms : List Atom) →
        Leads predicate (met variables names.old head atoms) tokens.old
        (terms_opening p.place p.is_role) (met variables names.new head atoms) tokens.new) }
    ensures stops { IfErr result (λ fault. (variables : List Text) (head : List ℕ) (atoms : List Atom) →
        Stops predicate (met variables names.old head atoms) tokens.old fault names.new) }
    ensures fits { OnOk result (length names.new ≤ max_names) }
    ensures grows { Extends names.old names.new }
    ensures passes { Passes tokens.old tokens.new }
{
    let (token, at) = tokens.next();
    let Token::Iri(text) = token else {
        return Err(QueryFault::Syntax { at });
    };
    if !may_be_class(text) {
        return Err(QueryFault::Reserved { at });
    }
    let place = place_of(names, text, at)?;
    let is_role = is_free(text);
    Ok(Predicate { place, is_role })
}

/// The term that stands next.
fn read_term<'a>(
    tokens: &mut Tokens<'a>,
    variables: &mut Variables<'a>,
    names: &mut NameSet,
) -> Result<Reference, QueryFault>
    ensures ok { IfOk result (λ t. (head : List ℕ) (atoms : List Atom) (expected : Term → Expected) →
        term_move (met variables.old names.old head atoms) (next_symbol tokens.old) expected
        ≡ goes (expected (term_of t)) (met variables.new names.new head atoms)) }
    ensures refuses { IfErr result (λ fault.
        (head : List ℕ) (atoms : List Atom) (expected : Term → Expected) →
        Refuses (term_move (met variables.old names.old head atoms) (next_symbol tokens.old) expected)
        (next_at tokens.old) fault) }
    ensures below { IfOk result (IsBelow (length variables.new)) }
    ensures more { OnOk result (length variables.old ≤ length variables.new) }
    ensures kept { OnErr result (names.new ≡ names.old) }
    ensures fits { length names.old ≤ max_names → length names.new ≤ max_names }
    ensures grows { Extends names.old names.new }
    ensures passes { Passes tokens.old tokens.new }
{
    let (token, at) = tokens.next();
    match token {
        Token::Variable(name) => match variables.number(name) {
            Ok(number) => Ok(Reference::Variable(number)),
            Err(_) => Err(QueryFault::NoMemory),
        },
        Token::Iri(text) => {
            if !is_free(text) {
                return Err(QueryFault::Reserved { at });
            }
            let place = place_of(names, text, at)?;
            Ok(Reference::Name(place))
        }
        _ => Err(QueryFault::Syntax { at }),
    }
}

/// The place of a name that stands at this offset.
fn place_of(names: &mut NameSet, text: &str, at: usize) -> Result<u32, QueryFault>
    ensures place { IfOk result (λ place.
        place ≡ place_of (names_after names.old text.now) text.now) }
    ensures named { OnOk result (names.new ≡ names_after names.old text.now) }
    ensures room { OnOk result (has_no_place names.old text.now ≡ false) }
    ensures fits { length names.new ≤ max_names }
    ensures full { IfErr result (λ fault. fault ≢ QueryFault.NoMemory →
        (fault ≡ QueryFault.TooManyNames at) × (has_no_place names.old text.now ≡ true)) }
    ensures kept { OnErr result (names.new ≡ names.old) }
{
    match names.add(text) {
        Ok(place) => Ok(place),
        Err(NameFault::Full) => Err(QueryFault::TooManyNames { at }),
        Err(NameFault::NoMemory) => Err(QueryFault::NoMemory),
    }
}
