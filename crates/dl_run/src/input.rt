// Ontology and data, read for faults and held over the numbers of names.
ghost use Rattle.std.specs.Prelude.{◌≡◌, ◌<◌, ◌++◌, [], ℕ, length, IfOk, IfErr};
ghost use Rattle.dl_run.specs.Input.{AreRead, IsNumbered};
ghost use Rattle.dl_run.specs.Numbered.{base_of, ArePlaced, IsBaseStop, IsMade};

use crate::base::NumberedBase;
use crate::signature::signature_of;
use crate::stop::Stop;
use dl_edits::{axiom_set, fact_set};
use dl_names::{NameSet, OWL_NOTHING, Ranks};
use dl_owl::{Document, read_ontology};
use dl_terms::{Fact, List, NoMemory};
use dl_triples::{Triples, read_triples};
use std::alloc::Global;

/// What ontology and data say, by the places of their names, or the first fault of them. The ontology is read first.
pub(crate) fn read_base(
    alloc: Global,
    ontology: &[u8],
    facts: &[u8],
    names: &mut NameSet,
) -> Result<(Document, Triples), Stop>
    requires { names.old ≡ [] }
    ensures read { IfOk result (λ base.
        AreRead ontology.now facts.now base.0 base.1.facts base.1.skipped names.new) }
    ensures placed { IfOk result (λ base. ArePlaced (length names.new) base.0 base.1.facts) }
    ensures stop { IfErr result (IsBaseStop ontology.now facts.now) }
{
    let document = read_ontology(alloc, ontology, names)?;
    let triples = read_triples(alloc, facts, names)?;
    Ok((document, triples))
}

/// What was read by places, by the numbers of names, and the number of each place.
pub(crate) fn numbered(
    names: NameSet,
    document: Document,
    triples: Triples,
) -> Result<(NumberedBase, Ranks), NoMemory>
    requires { ArePlaced (length names) document triples.facts }
    ensures numbered { IfOk result (λ made. (shards : ℕ) →
        IsNumbered document triples.facts triples.skipped names made.1 (base_of shards made.0)) }
    ensures made { IfOk result (λ made. IsMade made.0) }
    ensures one_each { IfOk result (λ made. length made.1 ≡ length names) }
{
    let (names, ranks) = names.freeze()?;
    let mut document = document;
    document.ranked(&ranks);
    let mut triples = triples;
    triples.ranked(&ranks);
    let Document {
        axioms,
        facts,
        classes,
        roles,
    } = document;
    let axioms = axiom_set(axioms);
    let both = joined(triples.facts, &facts)?;
    let facts = fact_set(both);
    let signature = signature_of(axioms.as_slice(), facts.as_slice(), classes, roles)?;
    let base = NumberedBase {
        axioms,
        facts,
        signature,
        skipped: triples.skipped,
        nothing: names.number(OWL_NOTHING),
        names,
    };
    Ok((base, ranks))
}

/// The facts of a list, and behind them those of another.
fn joined(facts: List<Fact>, others: &List<Fact>) -> Result<List<Fact>, NoMemory>
    ensures { IfOk result (λ both. both ≡ facts ++ others.now) }
{
    let mut both = facts;
    for fact in others.as_slice() {
        both.push(*fact)?;
    }
    Ok(both)
}
