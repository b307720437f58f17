// The certain answers of a query: the tuples of the disjuncts of its rewriting, united.
ghost use Rattle.std.specs.Prelude.{◌≡◌, ◌⊎◌, ◌<◌, ◌≤◌, List as Items, length, IfOk};
ghost use Rattle.std.specs.List.{All, Contains};
ghost use Rattle.dl_terms.specs.Answers.{IsCertain, AscendStrictly};
ghost use Rattle.dl_terms.specs.Queries.{IsWellFormed};
ghost use Rattle.dl_terms.specs.declared.axiom.Axiom.{Axiom};
ghost use Rattle.dl_terms.specs.declared.axiom.Fact.{Fact};
ghost use Rattle.dl_join.specs.Tuples.{AreExactly, AreMoreThan};
ghost use Rattle.dl_rewrite.specs.OverNames.{SomeHasOverNames};
ghost use Rattle.dl_rewrite.specs.Shape.{IsShapedFor};
ghost use Rattle.dl_answer.specs.Replies.{GivesTuples};
ghost use Rattle.dl_answer.specs.Searches.{AreRead, GoesOn, FindsTuples};

use crate::probes::tuples_of;
use crate::slots::KeptLists;
use dl_core::Reads;
use dl_hier::Hier;
use dl_join::{JoinFault, merge};
use dl_rewrite::rewrite;
use dl_terms::{Disjunct, Query, Tuples};
use std::alloc::Global;

/// The certain answers of a query, each once, ascending. `TooMany` comes exactly where they are more than the limit.
pub(crate) fn certain<R: Reads>(
    alloc: Global,
    hier: &Hier,
    reads: &mut R,
    version: u32,
    query: &Query,
    kept: &mut KeptLists,
    limit: u64,
) -> Result<Tuples, JoinFault>
    requires query { IsWellFormed query.now }
    requires pin { (R.reader reads.old).pin ≡ Some version }
    ensures goes { GoesOn version hier.now (R.stands reads.old) (R.reader reads.old) kept.old
        (R.stands reads.new) (R.reader reads.new) kept.new }
    ensures tuples { (axioms : Items Axiom) (known : Items Fact) →
        AreRead (R.stands reads.old) version hier.now kept.old axioms known →
        GivesTuples (IsCertain axioms known query.now) limit result }
{
    let disjuncts = rewrite(alloc, hier, query)?;
    united(
        alloc,
        hier,
        reads,
        version,
        query,
        disjuncts.as_slice(),
        kept,
        limit,
    )
}

/// The tuples that one of some disjuncts of a query has, each once, ascending. `TooMany` comes exactly where they are
/// more than the limit. Those of the front half and of the back half are united, so that a tuple is copied as often
/// as the disjuncts can be halved, and not once for each of them.
fn united<R: Reads>(
    alloc: Global,
    hier: &Hier,
    reads: &mut R,
    version: u32,
    query: &Query,
    disjuncts: &[Disjunct],
    kept: &mut KeptLists,
    limit: u64,
) -> Result<Tuples, JoinFault>
    requires query { IsWellFormed query.now }
    requires shaped { All (IsShapedFor query.now) disjuncts.now }
    requires pin { (R.reader reads.old).pin ≡ Some version }
    ensures goes { GoesOn version hier.now (R.stands reads.old) (R.reader reads.old) kept.old
        (R.stands reads.new) (R.reader reads.new) kept.new }
    ensures found { FindsTuples (AreRead (R.stands reads.old) version hier.now kept.old)
        (λ axioms known. SomeHasOverNames axioms known disjuncts.now) (length query.now.head) limit result }
{
    if disjuncts.len() < 2 {
        return of_first(alloc, hier, reads, version, query, disjuncts, kept, limit);
    }
    let (front, back) = disjuncts.split_at(disjuncts.len() / 2);
    let one = united(alloc, hier, reads, version, query, front, kept, limit)?;
    let two = united(alloc, hier, reads, version, query, back, kept, limit)?;
    union(alloc, one, two, limit)
}

/// The tuples of the only disjunct, or none where there is none.
fn of_first<R: Reads>(
    alloc: Global,
    hier: &Hier,
    reads: &mut R,
    version: u32,
    query: &Query,
    disjuncts: &[Disjunct],
    kept: &mut KeptLists,
    limit: u64,
) -> Result<Tuples, JoinFault>
    requires query { IsWellFormed query.now }
    requires shaped { All (IsShapedFor query.now) disjuncts.now }
    requires one { length disjuncts.now < 2 }
    requires pin { (R.reader reads.old).pin ≡ Some version }
    ensures goes { GoesOn version hier.now (R.stands reads.old) (R.reader reads.old) kept.old
        (R.stands reads.new) (R.reader reads.new) kept.new }
    ensures found { FindsTuples (AreRead (R.stands reads.old) version hier.now kept.old)
        (λ axioms known. SomeHasOverNames axioms known disjuncts.now) (length query.now.head) limit result }
{
    if disjuncts.len() == 0 {
        return Ok(Tuples::new(alloc, query.head.len() as u32));
    }
    tuples_of(alloc, hier, reads, version, &disjuncts[0], kept, limit)
}

/// The tuples of two lists, each once, ascending. `TooMany` comes exactly where they are more than the limit. Where
/// one list has none, nothing is copied.
fn union(alloc: Global, one: Tuples, two: Tuples, limit: u64) -> Result<Tuples, JoinFault>
    requires one { AscendStrictly one.tuples }
    requires two { AscendStrictly two.tuples }
    requires width { two.width ≡ one.width }
    requires one_within { length one.tuples ≤ limit }
    requires two_within { length two.tuples ≤ limit }
    ensures tuples { IfOk result (λ all.
        AreExactly (λ tuple. Contains one.tuples tuple ⊎ Contains two.tuples tuple) all.tuples) }
    ensures width { IfOk result (λ all. all.width ≡ one.width) }
    ensures within { IfOk result (λ all. length all.tuples ≤ limit) }
    ensures many { result ≡ Err JoinFault.TooMany →
        AreMoreThan limit (λ tuple. Contains one.tuples tuple ⊎ Contains two.tuples tuple) }
{
    if one.len() == 0 {
        return Ok(two);
    }
    if two.len() == 0 {
        return Ok(one);
    }
    merge(alloc, &one, &two, limit)
}
