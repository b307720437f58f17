// Needs turned, so that the variable that is met first is the one of the first column.
ghost use Rattle.std.specs.Prelude.{◌≡◌, ℕ, true, map, IfOk, IfSome, IfNone};
ghost use Rattle.std.specs.List.{All, Contains};
ghost use Rattle.dl_join.specs.Needs.{Mentions};
ghost use Rattle.dl_join.specs.Probing.{OrdersAll, is_first, IsBackward, AreTurned, AreTurnedLists, AreFitted, IsFitted, CanBeFitted};

use crate::need::{Column, Need, again};
use crate::order::is_before;
use dl_terms::{List, Pair, set_of};
use std::alloc::{AllocError, Global};

/// The other variable of a need, where it is met first.
fn backward(order: &[u8], need: &Need<'_>) -> Option<u8>
    ensures some { IfSome result (λ w. IsBackward order.now need.now w) }
    ensures none { IfNone result ((w : ℕ) → need.now.other ≡ Some w
        → is_first order.now need.now.at w ≡ true) }
{
    let other = need.other?;
    if is_before(order, need.at, other) {
        return None;
    }
    Some(other)
}

/// The pairs turned, sorted.
pub fn turned(alloc: Global, pairs: &[Pair]) -> Result<List<Pair>, AllocError>
    ensures { IfOk result (λ list. AreTurned pairs.now list) }
{
    let pairs = swapped(alloc, pairs)?;
    Ok(set_of(List::of(pairs)))
}

fn swapped(alloc: Global, pairs: &[Pair]) -> Result<Vec<Pair>, AllocError>
    ensures { IfOk result (λ turned. turned.items ≡ map (λ p. (p.1, p.0)) pairs.now) }
{
    pairs.iter().map(|p| (p.1, p.0)).collect(alloc)
}

/// The turned pairs of each need that has to be turned.
pub fn turned_lists(
    alloc: Global,
    order: &[u8],
    needs: &[Need<'_>],
) -> Result<Vec<List<Pair>>, AllocError>
    ensures { IfOk result (λ lists. AreTurnedLists order.now needs.now lists.items) }
{
    let mut lists = Vec::new(alloc);
    for need in needs {
        lists.push(turned_list(alloc, order, need)?)?;
    }
    Ok(lists)
}

fn turned_list(alloc: Global, order: &[u8], need: &Need<'_>) -> Result<List<Pair>, AllocError>
    ensures { IfOk result (λ list. (w : ℕ) → IsBackward order.now need.now w
        → AreTurned need.now.pairs.now list) }
{
    match backward(order, need) {
        Some(_) => turned(alloc, need.pairs),
        None => Ok(List::new(alloc)),
    }
}

/// The needs, those turned that have to be.
pub fn fitted_needs<'a>(
    alloc: Global,
    order: &[u8],
    needs: &'a [Need<'_>],
    lists: &'a [List<Pair>],
) -> Result<Vec<Need<'a>>, AllocError>
    requires order { OrdersAll order.now needs.now }
    requires needs { All CanBeFitted needs.now }
    requires lists { AreTurnedLists order.now needs.now lists.now }
    ensures { IfOk result (λ fitted. AreFitted order.now needs.now fitted.items) }
{
    let mut fitted = Vec::new(alloc);
    for (i, need) in needs.iter().enumerate() {
        fitted.push(fitted_need(order, need, lists[i].as_slice()))?;
    }
    Ok(fitted)
}

fn fitted_need<'a>(order: &[u8], need: &'a Need<'_>, turned: &'a [Pair]) -> Need<'a>
    requires order { (v : ℕ) → Mentions v need.now → Contains order.now v }
    requires need { CanBeFitted need.now }
    requires turned { (w : ℕ) → IsBackward order.now need.now w → AreTurned need.now.pairs.now turned.now }
    ensures { IsFitted order.now need.now result }
{
    match backward(order, need) {
        Some(other) => Need {
            at: other,
            other: Some(need.at),
            column: Column::First,
            pairs: turned,
        },
        None => again(need),
    }
}
