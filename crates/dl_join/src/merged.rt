// The union of two lists of tuples that ascend.
ghost use Rattle.std.specs.Prelude.{◌≡◌, ◌≢◌, ◌<◌, ◌≤◌, ◌⊎◌, [], length, slice_index_or, OnOk, IfOk};
ghost use Rattle.std.specs.List.{Contains};
ghost use Rattle.dl_terms.specs.Answers.{AscendStrictly};
ghost use Rattle.dl_join.specs.Tuples.{AreExactly, AreMoreThan, IsNext, FitsWidth};

use crate::JoinFault;
use dl_terms::Tuples;
use std::alloc::{AllocError, Global};
use std::cmp::Ordering;

/// Copies a tuple into a vector.
pub fn copy_tuple(tuples: &Tuples, i: u64, copy: &mut Vec<u32>) -> Result<(), AllocError>
    requires { i < length tuples.now.tuples }
    ensures copied { OnOk result (copy.new.items ≡ slice_index_or tuples.now.tuples i []) }
    ensures width { OnOk result (length copy.new.items ≡ tuples.now.width) }
{
    copy.clear();
    for j in 0..tuples.width() {
        copy.push(tuples.name(i, j))?;
    }
    Ok(())
}

/// Which of two lists has the next tuple of the union, from an index of each on: the first one where it is less, the
/// second where it is greater, both where it is equal. It is copied, for the first into `left`, else into `right`.
fn next(
    one: &Tuples,
    i: u64,
    two: &Tuples,
    j: u64,
    left: &mut Vec<u32>,
    right: &mut Vec<u32>,
) -> Result<Ordering, AllocError>
    requires one { i ≤ length one.now.tuples }
    requires two { j ≤ length two.now.tuples }
    requires some { i ≡ length one.now.tuples → j < length two.now.tuples }
    ensures next { IfOk result (λ order.
        IsNext order one.now.tuples i two.now.tuples j left.new.items right.new.items) }
    ensures width { IfOk result (λ order.
        FitsWidth order one.now.width two.now.width left.new.items right.new.items) }
{
    if i == one.len() {
        copy_tuple(two, j, right)?;
        return Ok(Ordering::Greater);
    }
    copy_tuple(one, i, left)?;
    if j == two.len() {
        return Ok(Ordering::Less);
    }
    copy_tuple(two, j, right)?;
    Ok(left.as_slice().cmp(right.as_slice()))
}

/// The tuples of two lists that ascend, each once, ascending. `TooMany` comes exactly where they are more than
/// the limit.
pub fn merge(alloc: Global, one: &Tuples, two: &Tuples, limit: u64) -> Result<Tuples, JoinFault>
    requires one { AscendStrictly one.now.tuples }
    requires two { AscendStrictly two.now.tuples }
    requires width { two.now.width ≡ one.now.width }
    ensures tuples { IfOk result (λ merged. AreExactly
        (λ tuple. Contains one.now.tuples tuple ⊎ Contains two.now.tuples tuple) merged.tuples) }
    ensures width { IfOk result (λ merged. merged.width ≡ one.now.width) }
    ensures within { IfOk result (λ merged. length merged.tuples ≤ limit) }
    ensures many { result ≡ Err JoinFault.TooMany → AreMoreThan limit
        (λ tuple. Contains one.now.tuples tuple ⊎ Contains two.now.tuples tuple) }
{
    let mut merged = Tuples::new(alloc, one.width());
    let mut left = Vec::new(alloc);
    let mut right = Vec::new(alloc);
    let ones = one.len();
    let twos = two.len();
    let mut i: u64 = 0;
    let mut j: u64 = 0;
    while i < ones || j < twos {
        let order = next(one, i, two, j, &mut left, &mut right)?;
        if merged.len() >= limit {
            return Err(JoinFault::TooMany);
        }
        match order {
            Ordering::Less => {
                merged.push(&left)?;
                i += 1;
            }
            Ordering::Equal => {
                merged.push(&right)?;
                i += 1;
                j += 1;
            }
            Ordering::Greater => {
                merged.push(&right)?;
                j += 1;
            }
        }
    }
    Ok(merged)
}
