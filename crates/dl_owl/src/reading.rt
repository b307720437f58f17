// Reads an ontology, or one axiom.
ghost use Rattle.std.specs.Prelude.{◌≡◌, ◌≢◌, ◌<◌, length, All, IfOk, IfErr};
ghost use Rattle.dl_names.specs.NameList.{Extends};
ghost use Rattle.dl_terms.specs.Auxiliaries.{HasNoAuxiliary};
ghost use Rattle.dl_terms.specs.Occurring.{axiom_names, fact_names};
ghost use Rattle.dl_owl.specs.Expected.{prologue, lone_axiom};
ghost use Rattle.dl_owl.specs.Reading.{ReadsValue, IsFault};

use crate::cursor::Cursor;
use crate::document::Document;
use crate::fault::OwlFault;
use crate::ontology::{lone, whole};
use dl_names::NameSet;
use std::alloc::Global;

/// Reads an ontology document of OWL 2 QL in the functional-style syntax. Names are places in the name set, by first
/// occurrence. The fault is that of the first token at which reading can't go on. Memory is all else that may be
/// wanting. After an error too the names are those before, at their places, and maybe names read before the fault.
pub fn read_ontology(alloc: Global, bytes: &[u8], names: &mut NameSet) -> Result<Document, OwlFault>
    ensures value { IfOk result (λ document.
        ReadsValue bytes.now prologue names.old document names.new) }
    ensures fault { IfErr result (λ fault. fault ≢ OwlFault.NoMemory →
        IsFault bytes.now prologue names.old fault) }
    ensures axiom_places { IfOk result (λ document.
        All (λ stated. All (λ place. place < length names.new) (axiom_names stated)) document.axioms) }
    ensures fact_places { IfOk result (λ document.
        All (λ fact. All (λ place. place < length names.new) (fact_names fact)) document.facts) }
    ensures class_places { IfOk result (λ document.
        All (λ place. place < length names.new) document.classes) }
    ensures role_places { IfOk result (λ document.
        All (λ place. place < length names.new) document.roles) }
    ensures grows { Extends names.old names.new }
    ensures no_auxiliaries { IfOk result (λ document. All HasNoAuxiliary document.axioms) }
{
    match Cursor::new(bytes) {
        Ok(mut at) => whole(alloc, &mut at, names),
        Err(fault) => Err(fault),
    }
}

/// Reads one axiom alone, with the predefined prefixes. Its names and its fault are told as those of an ontology are.
pub fn read_axiom(alloc: Global, bytes: &[u8], names: &mut NameSet) -> Result<Document, OwlFault>
    ensures value { IfOk result (λ document.
        ReadsValue bytes.now lone_axiom names.old document names.new) }
    ensures fault { IfErr result (λ fault. fault ≢ OwlFault.NoMemory →
        IsFault bytes.now lone_axiom names.old fault) }
    ensures axiom_places { IfOk result (λ document.
        All (λ stated. All (λ place. place < length names.new) (axiom_names stated)) document.axioms) }
    ensures fact_places { IfOk result (λ document.
        All (λ fact. All (λ place. place < length names.new) (fact_names fact)) document.facts) }
    ensures class_places { IfOk result (λ document.
        All (λ place. place < length names.new) document.classes) }
    ensures role_places { IfOk result (λ document.
        All (λ place. place < length names.new) document.roles) }
    ensures grows { Extends names.old names.new }
    ensures no_auxiliaries { IfOk result (λ document. All HasNoAuxiliary document.axioms) }
{
    match Cursor::new(bytes) {
        Ok(mut at) => lone(alloc, &mut at, names),
        Err(fault) => Err(fault),
    }
}
