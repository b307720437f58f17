//! Laws that tie the canonical structure to all finite models, by the meaning of axioms, facts and queries in each:
//! why its definitions need not be trusted as they stand.
ghost use Rattle.std.specs.Prelude.{◌↔◌, All};
ghost use Rattle.dl_terms.specs.Auxiliaries.{HasNoAuxiliary};
ghost use Rattle.dl_terms.specs.Structure.{Element, IsElement, HoldsAt, Joins};
ghost use Rattle.dl_terms.specs.Answers.{IsCertain};
ghost use Rattle.dl_terms.specs.Queries.{IsWellFormed};
ghost use Rattle.dl_terms.specs.Broken.{IsFirstBroken, NothingIsBroken};
ghost use Rattle.dl_terms.specs.declared.role.Role.{Role};
ghost use Rattle.dl_terms.specs.declared.role.Basic.TheVariants.{SomeOf};
ghost use Rattle.std.specs.Prelude.{Some, None};
ghost use Rattle.std.specs.declared.option.Option.{Option};
ghost use Rattle.dl_terms.specs.declared.axiom.Axiom.{Axiom as AxiomValue};
ghost use Rattle.dl_models.specs.Inclusions.{SatisfiesInclusions, IsFirstRefused};
ghost use Rattle.dl_models.specs.Meaning.{Accepts, FactHolds, IsModel, NothingIsEmpty, QueryHolds};
ghost use Rattle.dl_models.specs.Structures.{finite, canonical};

use crate::Interp;
use dl_terms::{Axiom, Fact, Query};

/// The query holds of the tuple in the model, where the tuple is a certain answer and `model` is a model of the axioms
/// and facts. Its names, and those of the individuals of the query, then have elements there.
pub fn answers_hold(
    axioms: &[Axiom],
    facts: &[Fact],
    nothing: Option<u32>,
    query: &Query,
    tuple: &[u32],
    model: &Interp,
)
    requires no_auxiliary { All HasNoAuxiliary axioms.now }
    requires well_formed { IsWellFormed query.now }
    requires certain { IsCertain axioms.now facts.now query.now tuple.now }
    requires is_model { IsModel (finite model.now) axioms.now facts.now nothing }
    ensures { QueryHolds (finite model.now) query.now tuple.now }
{}

/// A tuple of names is a certain answer exactly where the query holds of it in the canonical structure. With
/// `answers_hold` and `canonical_accepts` this is what a certain answer is: where nothing is broken, no model lacks it.
pub fn certain_in_canonical(axioms: &[Axiom], facts: &[Fact], query: &Query, tuple: &[u32])
    requires { IsWellFormed query.now }
    ensures { IsCertain axioms.now facts.now query.now tuple.now
        ↔ QueryHolds (canonical axioms.now facts.now) query.now tuple.now }
{}

/// Where something is broken, `model` is no model of the axioms and facts.
pub fn broken_excludes(axioms: &[Axiom], facts: &[Fact], nothing: Option<u32>, model: &Interp)
    requires no_auxiliary { All HasNoAuxiliary axioms.now }
    requires broken { (broken : Option AxiomValue) × IsFirstBroken axioms.now facts.now nothing broken }
    ensures { ¬ IsModel (finite model.now) axioms.now facts.now nothing }
{}

/// The axiom that is named as broken excludes by itself every finite structure in which the facts hold and which
/// satisfies the inclusions of all axioms; where `owl:Nothing` is what is broken, it isn't empty there.
pub fn broken_axiom_excludes(axioms: &[Axiom], facts: &[Fact], nothing: Option<u32>, model: &Interp)
    requires no_auxiliary { All HasNoAuxiliary axioms.now }
    requires inclusions { SatisfiesInclusions (finite model.now) axioms.now }
    requires facts { All (FactHolds (finite model.now)) facts.now }
    ensures named { (a : AxiomValue) → IsFirstBroken axioms.now facts.now nothing (Some a)
        → ¬ Accepts (finite model.now) a }
    ensures unnamed { IsFirstBroken axioms.now facts.now nothing None
        → ¬ NothingIsEmpty (finite model.now) nothing }
{}

/// The axiom that is named as broken is the first that the canonical structure doesn't accept, in which all facts hold
/// and which follows from the inclusions and facts alone; where `owl:Nothing` is what is broken, all are accepted.
pub fn broken_axiom_is_first(axioms: &[Axiom], facts: &[Fact], nothing: Option<u32>)
    requires { All HasNoAuxiliary axioms.now }
    ensures facts { All (FactHolds (canonical axioms.now facts.now)) facts.now }
    ensures named { (a : AxiomValue) → IsFirstBroken axioms.now facts.now nothing (Some a)
        → IsFirstRefused (canonical axioms.now facts.now) axioms.now a }
    ensures unnamed { IsFirstBroken axioms.now facts.now nothing None
        → All (Accepts (canonical axioms.now facts.now)) axioms.now
        × ¬ NothingIsEmpty (canonical axioms.now facts.now) nothing }
{}

/// "Some r" holds at an element of the canonical structure exactly where r joins it to some element. Where nothing is
/// broken, the canonical structure is a model of the axioms and facts: it accepts every axiom and every fact, and
/// nothing is in `owl:Nothing`.
pub fn canonical_accepts(axioms: &[Axiom], facts: &[Fact], nothing: Option<u32>)
    requires { All HasNoAuxiliary axioms.now }
    ensures some_of { (r : Role) (x : Element) → IsElement axioms.now facts.now x
        → HoldsAt axioms.now facts.now (SomeOf r) x
        ↔ ((y : Element) × IsElement axioms.now facts.now y × Joins axioms.now facts.now r x y) }
    ensures is_model { NothingIsBroken axioms.now facts.now nothing
        → IsModel (canonical axioms.now facts.now) axioms.now facts.now nothing }
{}
