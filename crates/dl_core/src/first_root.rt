// The load: the first root.
ghost use Rattle.std.specs.Prelude.{◌≡◌, ℕ, ◌≤◌, All, IfOk, IfErr, MatchResult};
ghost use Rattle.std.specs.List.Sorted.{IsStrictlySortedBy};
ghost use Rattle.dl_terms.specs.Auxiliaries.{HasNoAuxiliary};
ghost use Rattle.dl_terms.specs.Order.{axiom_cmp, fact_cmp};
ghost use Rattle.dl_epoch.specs.Known.{IsSignature, IsAxiomIn};
ghost use Rattle.dl_core.specs.History.{Load};
ghost use Rattle.dl_core.specs.Loading.{IsFactIn, IsLoadOf, IsLoaded, IsLoadFault, IsLoadWithin, first_book, load_with};

use crate::loaded_shards::loaded_shards;
use crate::{Book, LoadFault, Root};
use dl_edits::{axiom_set, axioms_ascend, fact_set, facts_ascend, predicate_count};
use dl_epoch::{Entry, Epoch, Epochs, copied_axioms};
use dl_hier::MAX_PREDICATES;
use dl_normal::weight;
use dl_terms::{Axiom, Fact, List, NoMemory, Signature};
use std::alloc::Global;
use std::sync::Arc;

/// The most that axioms may weigh.
pub(crate) const MAX_WEIGHT: u64 = 65_536;

/// The most rows that may be kept.
pub const MAX_ROWS: u64 = 4_194_304;

/// The root of axioms, a signature and facts, in 1 to 64 shards: version 1, epoch 1, and no pin. Axioms and facts stand
/// in any order and count once; axioms have no auxiliary role, and the signature, whose lists ascend strictly, has every
/// predicate of axioms and facts.
pub fn load(
    alloc: Global,
    axioms: &[Axiom],
    signature: &Signature,
    facts: &[Fact],
    shards: u32,
) -> Result<Root, LoadFault>
    requires no_auxiliary { All HasNoAuxiliary axioms.now }
    requires axioms { All (IsAxiomIn signature.now) axioms.now }
    requires facts { All (IsFactIn signature.now) facts.now }
    requires signature { IsSignature signature.now }
    requires some_shards { 1 ≤ shards }
    requires few_shards { shards ≤ 64 }
    ensures loaded { (l : Load) → IsLoadOf axioms.now signature.now facts.now shards l → IfOk result (IsLoaded l) }
    ensures refused { (l : Load) → IsLoadOf axioms.now signature.now facts.now shards l
        → IfErr result (IsLoadFault l) }
{
    if axioms_ascend(axioms) {
        return load_axioms(alloc, axioms, signature, facts, shards);
    }
    let copies = copied_axioms(alloc, axioms)?;
    let set = axiom_set(copies);
    load_axioms(alloc, set.as_slice(), signature, facts, shards)
}

/// The root of a set of axioms, and of facts in any order.
fn load_axioms(
    alloc: Global,
    axioms: &[Axiom],
    signature: &Signature,
    facts: &[Fact],
    shards: u32,
) -> Result<Root, LoadFault>
    requires ascending { IsStrictlySortedBy axiom_cmp axioms.now }
    requires no_auxiliary { All HasNoAuxiliary axioms.now }
    requires axioms { All (IsAxiomIn signature.now) axioms.now }
    requires facts { All (IsFactIn signature.now) facts.now }
    requires signature { IsSignature signature.now }
    requires some_shards { 1 ≤ shards }
    requires few_shards { shards ≤ 64 }
    ensures { (l : Load) → IsLoadOf axioms.now signature.now facts.now shards l
        → MatchResult result (IsLoaded l) (IsLoadFault l) }
{
    if facts_ascend(facts) {
        return load_sets(alloc, axioms, signature, facts, shards);
    }
    let copies = List::of(Vec::from_slice(alloc, facts)?);
    let set = fact_set(copies);
    load_sets(alloc, axioms, signature, set.as_slice(), shards)
}

/// The root of a set of axioms and a set of facts.
fn load_sets(
    alloc: Global,
    axioms: &[Axiom],
    signature: &Signature,
    facts: &[Fact],
    shards: u32,
) -> Result<Root, LoadFault>
    requires ascending { IsStrictlySortedBy axiom_cmp axioms.now }
    requires facts_ascending { IsStrictlySortedBy fact_cmp facts.now }
    requires no_auxiliary { All HasNoAuxiliary axioms.now }
    requires axioms { All (IsAxiomIn signature.now) axioms.now }
    requires facts { All (IsFactIn signature.now) facts.now }
    requires signature { IsSignature signature.now }
    requires some_shards { 1 ≤ shards }
    requires few_shards { shards ≤ 64 }
    ensures { MatchResult result (IsLoaded (load_with axioms.now signature.now facts.now shards))
        (IsLoadFault (load_with axioms.now signature.now facts.now shards)) }
{
    within_limits(alloc, axioms, signature, facts)?;
    let epoch = Epoch::build(alloc, 1, axioms, signature)?;
    let shards = loaded_shards(alloc, &epoch, facts, shards)?;
    let book = book_of(alloc, epoch, facts.len() as u64)?;
    Ok(Root::of(alloc, book, shards)?)
}

/// Tests the limits of sets that are to be loaded, in their order.
fn within_limits(
    alloc: Global,
    axioms: &[Axiom],
    signature: &Signature,
    facts: &[Fact],
) -> Result<(), LoadFault>
    requires { IsSignature signature.now }
    ensures { (shards : ℕ) → MatchResult result
        (λ _. IsLoadWithin (load_with axioms.now signature.now facts.now shards))
        (IsLoadFault (load_with axioms.now signature.now facts.now shards)) }
{
    let weight = weight(axioms);
    if weight > MAX_WEIGHT {
        return Err(LoadFault::TooManyAxioms { weight });
    }
    let count = predicate_count(alloc, axioms, signature)?;
    if count > MAX_PREDICATES as u64 {
        return Err(LoadFault::TooManyPredicates { count });
    }
    let rows = facts.len() as u64;
    if rows > MAX_ROWS {
        return Err(LoadFault::Full { rows });
    }
    Ok(())
}

/// The book of an epoch that covers every version from 1 on and is carried by so many rows.
fn book_of(alloc: Global, epoch: Epoch, rows: u64) -> Result<Book, NoMemory>
    ensures { IfOk result (λ book. book ≡ first_book epoch rows) }
{
    let Ok(epoch) = Arc::new(alloc, epoch) else {
        return Err(NoMemory);
    };
    let mut entries = List::new(alloc);
    entries.push(Entry {
        epoch,
        first: 1,
        rows,
    })?;
    Ok(Book {
        version: 1,
        epochs: Epochs::of(entries),
        pins: List::new(alloc),
        rows,
    })
}
