// Reads the terms of a triple: what it says, and its names.
ghost use Rattle.std.specs.Prelude.{◌≡◌, ◌≢◌, ℕ, ◌+◌, ◌<◌, ◌≤◌, ◌^◌, List, [], ◌∷◌, ◌++◌, Option, Some, IfOk, IfErr, OnOk, OnErr, IsOk, MatchResult};
ghost use Rattle.dl_names.specs.NameList.{Text, names_after, place_of};
ghost use Rattle.dl_triples.specs.declared.meaning.Meaning.TheVariants as meanings;
ghost use Rattle.dl_triples.specs.Meaning.{kind_of, meaning_of, triple_names, all_named};
ghost use Rattle.dl_triples.specs.Parts.{IsKept, IsKeptTriple};
ghost use Rattle.dl_triples.specs.Reading.{Overflows};
ghost use Rattle.dl_triples.specs.Adding.{NamesFirst, fault_at, AddsFact, AddsTriple, HasTripleFault};

use crate::ahead::Places;
use crate::fault::TripleFault;
use crate::line::{Iri, Triple};
use crate::meaning::{Kind, Meaning, kind_of, meaning_of_kinds};
use crate::reading::Triples;
use crate::spelling::decode;
use dl_names::{NameFault, NameSet};
use dl_terms::{Fact, List, NoMemory};

/// Reads a triple in the line with this number. The places, which may be any, are tried first, and the buffer is for
/// IRIs with escapes.
pub(crate) fn read_triple(
    triple: Triple,
    places: Places,
    n: u64,
    names: &mut NameSet,
    buffer: &mut String,
    triples: &mut Triples,
) -> Result<(), TripleFault>
    requires { triples.old.skipped + 1 < 2 ^ 64 }
    ensures ok { (s p : Text) (o : Option Text) → IsKeptTriple triple.entry s p o →
        OnOk result (AddsTriple s p o names.old names.new triples.old triples.new) }
    ensures fits { OnOk result (Overflows names.old names.new → ⊥) }
    ensures fault { (s p : Text) (o : Option Text) → IsKeptTriple triple.entry s p o →
        IfErr result (λ fault. fault ≢ TripleFault.NoMemory → HasTripleFault s p o names.old n fault) }
    ensures first { (s p : Text) (o : Option Text) → IsKeptTriple triple.entry s p o →
        OnErr result (NamesFirst names.old (triple_names s p o) names.new) }
    ensures few { triples.new.skipped ≤ triples.old.skipped + 1 }
{
    let Some(object) = triple.object else {
        triples.skipped += 1;
        return Ok(());
    };
    match meaning_of(triple.subject, triple.predicate, object, buffer)? {
        Meaning::Skipped => {
            triples.skipped += 1;
            Ok(())
        }
        Meaning::NoEffect => Ok(()),
        Meaning::Reserved => Err(TripleFault::Reserved { n }),
        Meaning::Class => told(
            add_class(
                triple.subject,
                object,
                places,
                names,
                buffer,
                &mut triples.facts,
            ),
            n,
        ),
        Meaning::Link => told(
            add_link(triple, object, places, names, buffer, &mut triples.facts),
            n,
        ),
    }
}

/// The fault of a name in the line with this number.
fn told(added: Result<(), NameFault>, n: u64) -> Result<(), TripleFault>
    ensures { MatchResult added (λ _. IsOk result) (λ was. result ≡ Err (fault_at n was)) }
{
    match added {
        Ok(()) => Ok(()),
        Err(NameFault::Full) => Err(TripleFault::TooManyNames { n }),
        Err(NameFault::NoMemory) => Err(TripleFault::NoMemory),
    }
}

/// What a triple of IRIs says.
fn meaning_of(
    subject: Iri,
    predicate: Iri,
    object: Iri,
    buffer: &mut String,
) -> Result<Meaning, NoMemory>
    ensures { (s p o : Text) →
        IsKept subject.entry s → IsKept predicate.entry p → IsKept object.entry o →
        IfOk result (λ meaning. meaning ≡ meaning_of s p (Some o)) }
{
    let subject = kind(subject, buffer)?;
    let predicate = kind(predicate, buffer)?;
    let object = kind(object, buffer)?;
    Ok(meaning_of_kinds(subject, predicate, object))
}

/// The kind of an IRI.
fn kind(iri: Iri, buffer: &mut String) -> Result<Kind, NoMemory>
    ensures { (value : Text) → IsKept iri.entry value → IfOk result (λ kind. kind ≡ kind_of value) }
{
    if iri.plain {
        return Ok(kind_of(iri.text));
    }
    decode(iri.text.as_bytes(), buffer)?;
    Ok(kind_of(buffer.as_str()))
}

/// The place of the name that an IRI is. It is added to the names. The place that is given is tried first.
fn add(iri: Iri, place: u32, names: &mut NameSet, buffer: &mut String) -> Result<u32, NameFault>
    ensures ok { (value : Text) → IsKept iri.entry value → IfOk result (λ place.
        (names.new ≡ names_after names.old value) × (place ≡ place_of names.new value)) }
    ensures fits { OnOk result (Overflows names.old names.new → ⊥) }
    ensures full { (value : Text) → IsKept iri.entry value → result ≡ Err NameFault.Full →
        Overflows names.old (names_after names.old value) }
    ensures err { OnErr result (names.new ≡ names.old) }
{
    if iri.plain {
        return names.add_at(iri.text, place);
    }
    let Ok(()) = decode(iri.text.as_bytes(), buffer) else {
        return Err(NameFault::NoMemory);
    };
    names.add(buffer.as_str())
}

/// Adds the fact that an individual is in a class.
fn add_class(
    subject: Iri,
    object: Iri,
    places: Places,
    names: &mut NameSet,
    buffer: &mut String,
    facts: &mut List<Fact>,
) -> Result<(), NameFault>
    ensures ok { (s p o : Text) → IsKept subject.entry s → IsKept object.entry o →
        OnOk result (AddsFact meanings.Class s p (Some o) names.old names.new facts.old facts.new) }
    ensures fits { OnOk result (Overflows names.old names.new → ⊥) }
    ensures full { (s o : Text) → IsKept subject.entry s → IsKept object.entry o →
        result ≡ Err NameFault.Full → Overflows names.old (all_named names.old (s ∷ o ∷ [])) }
    ensures first { (s o : Text) → IsKept subject.entry s → IsKept object.entry o →
        OnErr result (NamesFirst names.old (s ∷ o ∷ []) names.new) }
{
    let who = add(subject, places.subject, names, buffer)?;
    let class = add(object, places.object, names, buffer)?;
    push(facts, Fact::Is { class, who })
}

/// Adds the fact that a role joins two individuals.
fn add_link(
    triple: Triple,
    object: Iri,
    places: Places,
    names: &mut NameSet,
    buffer: &mut String,
    facts: &mut List<Fact>,
) -> Result<(), NameFault>
    ensures ok { (s p o : Text) →
        IsKept triple.entry.subject s → IsKept triple.entry.predicate p → IsKept object.entry o →
        OnOk result (AddsFact meanings.Link s p (Some o) names.old names.new facts.old facts.new) }
    ensures fits { OnOk result (Overflows names.old names.new → ⊥) }
    ensures full { (s p o : Text) →
        IsKept triple.entry.subject s → IsKept triple.entry.predicate p → IsKept object.entry o →
        result ≡ Err NameFault.Full → Overflows names.old (all_named names.old (s ∷ p ∷ o ∷ [])) }
    ensures first { (s p o : Text) →
        IsKept triple.entry.subject s → IsKept triple.entry.predicate p → IsKept object.entry o →
        OnErr result (NamesFirst names.old (s ∷ p ∷ o ∷ []) names.new) }
{
    let from = add(triple.subject, places.subject, names, buffer)?;
    let role = add(triple.predicate, places.predicate, names, buffer)?;
    let to = add(object, places.object, names, buffer)?;
    push(facts, Fact::Link { role, from, to })
}

fn push(facts: &mut List<Fact>, fact: Fact) -> Result<(), NameFault>
    ensures ok { OnOk result (facts.new ≡ facts.old ++ fact ∷ []) }
    ensures err { IfErr result (λ fault. fault ≡ NameFault.NoMemory) }
{
    match facts.push(fact) {
        Ok(()) => Ok(()),
        Err(_) => Err(NameFault::NoMemory),
    }
}
