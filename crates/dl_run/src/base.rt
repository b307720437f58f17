// What is held of ontology and data.
ghost use Rattle.std.specs.Prelude.{◌<◌, length};
ghost use Rattle.std.specs.List.{All};
ghost use Rattle.dl_terms.specs.Occurring.{axiom_names, fact_names};

use dl_names::Names;
use dl_terms::{Axiom, Fact, List, Signature};

/// What ontology and data give: the sets of axioms and facts over the numbers of names, their signature, how many
/// triples were skipped, and the number of `owl:Nothing`, where it is a name.
#[derive(Drop)]
pub(crate) struct NumberedBase {
    pub names: Names,
    pub axioms: List<Axiom>,
    pub facts: List<Fact>,
    pub signature: Signature,
    pub skipped: u64,
    pub nothing: Option<u32>,
    ghost axioms_named: { All (λ stated. All (λ name. name < length names) (axiom_names stated)) axioms },
    ghost facts_named: { All (λ fact. All (λ name. name < length names) (fact_names fact)) facts },
}
