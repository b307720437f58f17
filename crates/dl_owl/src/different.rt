// The individuals of a DifferentIndividuals.
ghost use Rattle.std.specs.Prelude.{◌≡◌, [], not, List, IfOk, IfErr, OnOk};
ghost use Rattle.dl_names.specs.NameList.{Text, has_name, names_after};
ghost use Rattle.dl_owl.specs.Different.{ReadsDifferent};
ghost use Rattle.dl_owl.specs.Expected.{different_close};
ghost use Rattle.dl_owl.specs.Walk.{here, Passes};

use crate::cursor::{Cursor, close};
use crate::fault::{Construct, OwlFault};
use crate::name::{expect_iri, no_individual};
use crate::prefixes::Prefixes;
use dl_lex::Keyword;
use dl_names::is_free;
use indexmap::IndexSet;
use std::alloc::Global;
use std::marker::Model;

/// Individuals that were met. Contracts see the list of their texts, in the order in which they were met.
#[derive(Drop)]
struct Individuals {
    texts: IndexSet<String>,
}

impl Model for Individuals {
    ghost use Rattle.std.specs.Prelude.{List, ℕ, map, string_bytes};

    ghost Value = { List (List ℕ) };

    ghost view = { λ s. map string_bytes s.texts.keys };
}

impl Individuals {
    /// No individuals.
    fn new(alloc: Global) -> Individuals
        ensures { result ≡ [] }
    {
        Individuals {
            texts: IndexSet::new(alloc),
        }
    }

    /// Adds an individual, and tells whether it is new.
    fn add(&mut self, text: &str) -> Result<bool, OwlFault>
        ensures added { OnOk result (self.new ≡ names_after self.old text.now) }
        ensures is_new { IfOk result (λ new. new ≡ not (has_name self.old text.now)) }
        ensures fault { IfErr result (λ fault. fault ≡ OwlFault.NoMemory) }
    {
        let owned = String::from_str(*self.texts.allocator(), text)?;
        let new = self.texts.insert(owned)?;
        Ok(new)
    }
}

/// Passes over an individual that is none of those before, and adds it to them.
fn add_individual(
    at: &mut Cursor,
    prefixes: &Prefixes,
    text: &mut String,
    before: &mut Individuals,
) -> Result<(), OwlFault>
    ensures { (names : List Text) → ReadsDifferent (here at.old prefixes.now names)
        (here at.new prefixes.now names) before.old before.new result }
{
    let other = no_individual(at);
    let start = at.start();
    expect_iri(at, prefixes, text, other)?;
    let iri = text.as_str();
    let new = before.add(iri)?;
    if !new {
        return Err(OwlFault::LeftOut {
            at: start,
            what: Construct::Keyword(Keyword::DifferentIndividuals),
        });
    }
    if !is_free(iri) {
        return Err(OwlFault::Reserved { at: start });
    }
    at.advance()?;
    Ok(())
}

/// Passes over individuals, two at least, no one of them twice, and the `)` behind them.
pub(crate) fn different(
    alloc: Global,
    at: &mut Cursor,
    prefixes: &Prefixes,
    text: &mut String,
) -> Result<(), OwlFault>
    ensures { (names : List Text) → Passes (different_close 2 []) (here at.old prefixes.now names)
        (here at.new prefixes.now names) result }
{
    let mut before = Individuals::new(alloc);
    add_individual(at, prefixes, text, &mut before)?;
    add_individual(at, prefixes, text, &mut before)?;
    while !at.is_close() {
        add_individual(at, prefixes, text, &mut before)?;
    }
    close(at)
}
