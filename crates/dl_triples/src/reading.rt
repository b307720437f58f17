// Reads a text of N-Triples line by line.
ghost use Rattle.std.specs.Prelude.{◌≡◌, ◌≢◌, ℕ, ◌+◌, ◌<◌, ◌≤◌, ◌^◌, ◌⊎◌, List, length, map, slice_index, MatchResult, IfOk, IfErr, OnOk, OnErr, IsOk, vec_len};
ghost use Rattle.std.specs.List.{All};
ghost use Rattle.dl_terms.specs.declared.axiom.Fact.{Fact};
ghost use Rattle.dl_terms.specs.Renamed.{renamed_fact};
ghost use Rattle.dl_terms.specs.Occurring.{fact_names};
ghost use Rattle.dl_names.specs.NameList.{Text, max_names};
ghost use Rattle.dl_triples.specs.declared.fault.TripleFault.{TripleFault};
ghost use Rattle.dl_triples.specs.Reading.{IsValue, IsFirstFault, HasFault, HoldsFirst, HoldsPart};
ghost use Rattle.dl_triples.specs.Adding.{AddsLine};
ghost use Rattle.dl_triples.specs.Parts.{HasForm};
ghost use Rattle.dl_triples.specs.Progress.{AreCut, Read};

use crate::ahead::{Ahead, Places};
use crate::fault::TripleFault;
use crate::line::{Form, form_of};
use crate::lines::first_line;
use crate::triple::read_triple;
use dl_names::{NameSet, Ranks};
use dl_terms::{Fact, List};
use std::alloc::Global;

/// The value of a text of N-Triples.
#[derive(Drop)]
pub struct Triples {
    /// The facts, in the order of their lines. `read_triples` gives each name by its place in the name set.
    pub facts: List<Fact>,
    /// How many triples were skipped: those with a literal, or with an annotation property that OWL 2 has
    /// built in.
    pub skipped: u64,
}

impl Triples {
    /// Replaces each place by its rank, which is the number of its name. The places are ones that `NameSet::add`
    /// gave. It takes no memory.
    pub fn ranked(&mut self, ranks: &Ranks)
        requires { All (λ fact. All (λ place. place < length ranks.now) (fact_names fact)) self.old.facts }
        ensures facts { self.new.facts ≡ map (renamed_fact (slice_index ranks.now)) self.old.facts }
        ensures skipped { self.new.skipped ≡ self.old.skipped }
    {
        ranks.rank_facts(self.facts.as_mut_slice());
    }
}

/// Reads a text of RDF 1.1 N-Triples. Lines end by CR LF, CR, LF or the end of the bytes, and are counted from 1.
/// A triple is skipped and counted where its object is a literal or its predicate is an annotation property that
/// OWL 2 has built in. One that says that an individual is in `owl:NamedIndividual` or `owl:Thing` has no effect.
/// Another one with the predicate `rdf:type` is a fact of a class, and the rest are facts of roles. After `Ok` the
/// names are those before and then those of the facts, by first occurrence.
///
/// The fault is that of the first line that has one: `Line` where it is no triple, no comment and not empty;
/// `Blank` where a blank node begins where the subject or, behind two right terms, the object has to begin,
/// whatever stands behind; `Reserved` where the triple says something and has a reserved name other than
/// `owl:Nothing` as a class; `TooManyNames` where it has no other fault and its names don't fit. Memory is all
/// else that may be wanting. After an error the names are those before, those of some first lines and maybe the
/// first ones of the fact of the next.
pub fn read_triples(
    alloc: Global,
    bytes: &[u8],
    names: &mut NameSet,
) -> Result<Triples, TripleFault>
    ensures value { IfOk result (λ triples.
        IsValue bytes.now names.old triples.facts triples.skipped names.new) }
    ensures fault { IfErr result (λ fault. fault ≢ TripleFault.NoMemory →
        IsFirstFault bytes.now names.old fault) }
    ensures value_read { (facts : List Fact) (skipped : ℕ) (after : List Text) →
        IsValue bytes.now names.old facts skipped after →
        MatchResult result
        (λ triples. (triples.facts ≡ facts) × (triples.skipped ≡ skipped) × (names.new ≡ after))
        (λ fault. fault ≡ TripleFault.NoMemory) }
    ensures fault_told { (first : TripleFault) → IsFirstFault bytes.now names.old first →
        IfErr result (λ fault. (fault ≡ first) ⊎ (fault ≡ TripleFault.NoMemory))
        × (IsOk result → ⊥) }
    ensures places { IfOk result (λ triples.
        All (λ fact. All (λ place. place < length names.new) (fact_names fact)) triples.facts) }
    ensures part { OnErr result (HoldsPart bytes.now names.old names.new) }
{
    let mut triples = Triples {
        facts: List::new(alloc),
        skipped: 0,
    };
    let mut buffer = String::new(alloc);
    let mut ahead = Ahead::new(alloc)?;
    let mut rest = bytes;
    let mut n = 1u64;
    'lines: loop {
        let next = ahead.look(rest, names)?;
        read_ahead(&ahead, n, names, &mut buffer, &mut triples)?;
        n += ahead.forms.len() as u64;
        let (line, behind) = first_line(next);
        read_line(line, n, names, &mut buffer, &mut triples)?;
        let Some(next) = behind else {
            return Ok(triples);
        };
        rest = next;
        n += 1;
    }
}

/// Reads the lines that were cut ahead, of which the first has this number.
fn read_ahead(
    ahead: &Ahead,
    n: u64,
    names: &mut NameSet,
    buffer: &mut String,
    triples: &mut Triples,
) -> Result<(), TripleFault>
    requires counted { triples.old.skipped + vec_len ahead.now.forms + 1 < 2 ^ 64 }
    requires numbered { n + vec_len ahead.now.forms < 2 ^ 64 }
    ensures ok { (bytes rest behind : List ℕ) (before : List Text) →
        Read bytes rest before names.old n triples.old.facts triples.old.skipped →
        AreCut rest ahead.now.forms.items behind →
        OnOk result (Read bytes behind before names.new (n + vec_len ahead.now.forms)
        triples.new.facts triples.new.skipped) }
    ensures fault { (bytes rest behind : List ℕ) (before : List Text) →
        Read bytes rest before names.old n triples.old.facts triples.old.skipped →
        AreCut rest ahead.now.forms.items behind →
        IfErr result (λ fault. fault ≢ TripleFault.NoMemory → IsFirstFault bytes before fault) }
    ensures part { (bytes rest behind : List ℕ) (before : List Text) →
        Read bytes rest before names.old n triples.old.facts triples.old.skipped →
        AreCut rest ahead.now.forms.items behind →
        OnErr result (HoldsPart bytes before names.new) }
{
    for (index, form) in ahead.forms.iter().enumerate() {
        let places = ahead.places(index);
        read_form(*form, places, n + index as u64, names, buffer, triples)?;
    }
    Ok(())
}

/// Reads the line with this number.
fn read_line(
    line: &[u8],
    n: u64,
    names: &mut NameSet,
    buffer: &mut String,
    triples: &mut Triples,
) -> Result<(), TripleFault>
    requires { triples.old.skipped + 1 < 2 ^ 64 }
    ensures ok { OnOk result (AddsLine line.now names.old names.new triples.old triples.new) }
    ensures fault { IfErr result (λ fault. fault ≢ TripleFault.NoMemory →
        HasFault line.now names.old n fault) }
    ensures first { OnErr result (HoldsFirst line.now names.old names.new) }
{
    read_form(form_of(line), Places::any(), n, names, buffer, triples)
}

/// Reads a line of this form and with this number. The places, which may be any, are tried first.
fn read_form(
    form: Form,
    places: Places,
    n: u64,
    names: &mut NameSet,
    buffer: &mut String,
    triples: &mut Triples,
) -> Result<(), TripleFault>
    requires { triples.old.skipped + 1 < 2 ^ 64 }
    ensures ok { (line : List ℕ) → HasForm line form.entry →
        OnOk result (AddsLine line names.old names.new triples.old triples.new) }
    ensures fault { (line : List ℕ) → HasForm line form.entry →
        IfErr result (λ fault. fault ≢ TripleFault.NoMemory → HasFault line names.old n fault) }
    ensures first { (line : List ℕ) → HasForm line form.entry →
        OnErr result (HoldsFirst line names.old names.new) }
    ensures few { triples.new.skipped ≤ triples.old.skipped + 1 }
{
    match form {
        Form::Nothing => Ok(()),
        Form::Triple(triple) => read_triple(triple, places, n, names, buffer, triples),
        Form::Node => Err(TripleFault::Blank { n }),
        Form::Other => Err(TripleFault::Line { n }),
    }
}
