// The generated input as a whole.
ghost use Rattle.std.specs.Prelude.{◌≡◌, ◌≤◌, IfOk};
ghost use Rattle.dl_stream.specs.Generator.{generated_axioms, drawn_facts, generated_streams, name_texts};

use crate::Streams;
use crate::draws::generated_facts;
use crate::generated_axioms::generated_axioms;
use crate::generated_names::generated_names;
use crate::generated_stream::generated_streams;
use dl_names::Names;
use dl_terms::{Axiom, Fact, List, NoMemory};
use std::alloc::Global;

/// A large input: an ontology, facts and streams over names.
#[derive(Drop)]
pub struct Generated {
    pub axioms: List<Axiom>,
    pub facts: List<Fact>,
    pub streams: Streams,
    pub names: Names,
}

/// The input that is made from a number, with as many individuals and drawn facts as the size says, which is from 1 to
/// 100,000. Facts stand in the order of the draws, and may be there twice. The axioms stand in the order in which the
/// definition lists them, which is not the order of axioms; a load takes them in any order. Fails only for want of
/// memory.
pub fn generate(alloc: Global, number: u32, size: u32) -> Result<Generated, NoMemory>
    requires some { 1 ≤ size }
    requires few { size ≤ 100000 }
    ensures axioms { IfOk result (λ input. input.axioms ≡ generated_axioms size) }
    ensures facts { IfOk result (λ input. input.facts ≡ drawn_facts size number size) }
    ensures streams { IfOk result (λ input. input.streams ≡ generated_streams size) }
    ensures names { IfOk result (λ input. input.names ≡ name_texts size) }
{
    Ok(Generated {
        axioms: generated_axioms(alloc, size)?,
        facts: generated_facts(alloc, number, size)?,
        streams: generated_streams(alloc, size)?,
        names: generated_names(alloc, size)?,
    })
}
