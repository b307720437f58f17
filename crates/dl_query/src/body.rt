// The body of a query text.
ghost use Rattle.std.specs.Prelude.{◌≡◌, ◌<◌, ◌≤◌, ◌+◌, ◌^◌, ℕ, List, [], ◌∷◌, ◌++◌, length, false, replicate, IfOk, IfErr, OnOk};
ghost use Rattle.dl_names.specs.NameList.{max_names, Extends};
ghost use Rattle.dl_terms.specs.declared.query.Atom.{Atom};
ghost use Rattle.dl_terms.specs.Queries.{term_variables, atom_variables};
ghost use Rattle.dl_query.specs.Grammar.{met};
ghost use Rattle.dl_query.specs.Steps.{predicate};
ghost use Rattle.dl_query.specs.Parts.{Stops, ReadsBody, Keeps, IsBelow, AreBelow, term_of, atom_of, Marks};

use crate::QueryFault;
use crate::statement::{Reference, Statement, read_statement};
use crate::token::Mark;
use crate::tokens::Tokens;
use crate::variables::Variables;
use dl_names::NameSet;
use dl_terms::{Atom, List, Term};
use std::alloc::{AllocError, Global};

/// The most atoms that a query may have, and the most variables for which they are kept.
const MAX_ATOMS: u64 = 16;

const MAX_KEPT_VARIABLES: usize = 256;

/// What is kept of a body.
#[derive(Drop)]
pub(crate) struct Body {
    /// How many atoms there are.
    pub(crate) count: u64,
    /// The atoms, where they and the variables are few.
    pub(crate) kept: List<Atom>,
    /// Whether each variable of the head is in an atom.
    pub(crate) bound: Vec<bool>,
}

/// The body that stands next, up to the end of the text.
pub(crate) fn read_body<'a>(
    alloc: Global,
    tokens: &mut Tokens<'a>,
    variables: &mut Variables<'a>,
    names: &mut NameSet,
) -> Result<Body, QueryFault>
    ensures ok { IfOk result (λ body.
        ReadsBody tokens.old variables.old names.old variables.new names.new body) }
    ensures stops { IfErr result (λ fault. (head : List ℕ) →
        Stops predicate (met variables.old names.old head []) tokens.old fault names.new) }
    ensures grows { Extends names.old names.new }
    ensures more { OnOk result (length variables.old ≤ length variables.new) }
    ensures fits { OnOk result (length names.new ≤ max_names) }
{
    let mut body = Body::new(alloc, variables.len())?;
    'atoms: loop {
        let statement = read_statement(tokens, variables, names)?;
        body.add(statement, variables.len())?;
        match tokens.comma_or(Mark::Ending)? {
            None => return Ok(body),
            Some(_) => {}
        }
    }
}

impl Body {
    /// Nothing, behind a head with so many variables. Memory is all that may be wanting.
    fn new(alloc: Global, heads: usize) -> Result<Body, QueryFault>
        ensures ok { IfOk result (λ body. Keeps body [] heads heads) }
        ensures err { IfErr result (λ fault. fault ≡ QueryFault.NoMemory) }
    {
        let bound = unmarked(alloc, heads)?;
        Ok(Body {
            count: 0,
            kept: List::new(alloc),
            bound,
        })
    }

    /// Adds an atom, with which so many variables are met. Memory is all that may be wanting.
    fn add(&mut self, statement: Statement, variables: usize) -> Result<(), QueryFault>
        requires room { self.old.count + 1 < 2 ^ 64 }
        requires below { AreBelow variables statement }
        ensures ok { OnOk result ((atoms : List Atom) (before heads : ℕ) →
            before ≤ variables → Keeps self.old atoms before heads →
            Keeps self.new (atoms ++ atom_of statement ∷ []) variables heads) }
        ensures err { IfErr result (λ fault. fault ≡ QueryFault.NoMemory) }
    {
        self.count += 1;
        mark_all(&mut self.bound, statement);
        if self.count <= MAX_ATOMS && variables <= MAX_KEPT_VARIABLES {
            self.kept.push(atom(statement))?;
        }
        Ok(())
    }
}

/// So many marks, none of which is set.
fn unmarked(alloc: Global, count: usize) -> Result<Vec<bool>, AllocError>
    ensures { IfOk result (λ marks. marks.items ≡ replicate count false) }
{
    vec![in alloc; false; count]
}

/// Marks the variables of an atom, those of them that have a mark.
fn mark_all(bound: &mut Vec<bool>, statement: Statement)
    ensures { Marks bound.old.items (atom_variables (atom_of statement)) bound.new.items }
{
    match statement {
        Statement::Is { at, .. } => mark(bound, at),
        Statement::Link { from, to, .. } => {
            mark(bound, from);
            mark(bound, to);
        }
    }
}

/// Marks the variable of a term, if it is one of those that have a mark.
fn mark(bound: &mut Vec<bool>, reference: Reference)
    ensures { Marks bound.old.items (term_variables (term_of reference)) bound.new.items }
{
    if let Reference::Variable(number) = reference {
        if number < bound.len() {
            bound[number] = true;
        }
    }
}

/// The atom, whose variables are below 256.
fn atom(statement: Statement) -> Atom
    requires { AreBelow 256 statement }
    ensures { result ≡ atom_of statement }
{
    match statement {
        Statement::Is { class, at } => Atom::Is {
            class,
            at: term(at),
        },
        Statement::Link { role, from, to } => Atom::Link {
            role,
            from: term(from),
            to: term(to),
        },
    }
}

/// The term, whose variable is below 256.
fn term(reference: Reference) -> Term
    requires { IsBelow 256 reference }
    ensures { result ≡ term_of reference }
{
    match reference {
        Reference::Variable(number) => Term::Var(number as u8),
        Reference::Name(place) => Term::Name(place),
    }
}
