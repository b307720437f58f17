// Leaves are taken off the needs, and what is left is searched.
ghost use Rattle.std.specs.Prelude.{◌≡◌, ◌⊎◌, true, false, length, map, OnOk, IfOk};
ghost use Rattle.std.specs.List.{All, Any};
ghost use Rattle.dl_join.specs.Needs.{Mentions};
ghost use Rattle.dl_join.specs.Searching.{IsGiven, IsCovered};
ghost use Rattle.dl_join.specs.Probing.{CanBeFitted};
ghost use Rattle.dl_join.specs.Gathering.{Has, IsGathered, Gathers};
ghost use Rattle.dl_join.specs.Leaves.{HasNames, IsLone, IsLast, doubled_name};
ghost use Rattle.dl_join.specs.Direct.{IsDirect};
ghost use Rattle.dl_join.specs.Tuples.{AreMoreThan};

use crate::JoinFault;
use crate::direct::{is_direct, is_last, is_lone};
use crate::gather::Gathered;
use crate::leaf::{is_once, leaf_of, needs_beyond, needs_near};
use crate::need::{Column, Need};
use crate::order::order_of;
use crate::search::search;
use crate::turn::{fitted_needs, turned, turned_lists};
use dl_terms::{List, NoMemory, Pair, Term, Tuples, set_of};
use std::alloc::{AllocError, Global};

/// Gathers what needs give to a head, after at most so many leaves were taken off. The needs of a leaf, and those of
/// the variable alone that it hangs on, become one list of the names that they leave to that. Where one need alone has
/// the leaf, that list is its own, turned if it has the leaf first.
pub fn reduced(
    alloc: Global,
    needs: &[Need<'_>],
    head: &[Term],
    most: usize,
    gathered: &mut Gathered,
) -> Result<(), JoinFault>
    requires needs { All CanBeFitted needs.now }
    requires covered { IsCovered needs.now head.now }
    requires gathered { IsGathered gathered.old }
    requires width { length head.now ≡ gathered.old.known.width }
    ensures ok { OnOk result (Gathers (IsGiven needs.now head.now) gathered.old gathered.new) }
    ensures many { result ≡ Err JoinFault.TooMany → AreMoreThan gathered.old.limit
        (λ tuple. Has gathered.old tuple ⊎ IsGiven needs.now head.now tuple) }
{
    if most == 0 {
        return given(alloc, needs, head, gathered);
    }
    let Some((leaf, to)) = leaf_of(needs, head) else {
        return given(alloc, needs, head, gathered);
    };
    let wide = !is_once(needs, leaf);
    let near = needs_near(alloc, needs, wide, leaf, to)?;
    if is_whole(wide, near.len(), needs.len()) {
        return given(alloc, needs, head, gathered);
    }
    let lone = is_lone(near.as_slice(), to);
    let made = made_names(alloc, near.as_slice(), to, lone)?;
    let mut beyond = needs_beyond(alloc, &*needs, wide, leaf, to)?;
    beyond.push(Need {
        at: to,
        other: None,
        column: Column::First,
        pairs: names_of(near.as_slice(), made.as_slice(), to, lone),
    })?;
    reduced(alloc, beyond.as_slice(), head, most - 1, gathered)
}

/// True where needs that were asked widely are all: to take off their leaf is to search them twice.
fn is_whole(wide: bool, near: usize, needs: usize) -> bool {
    wide && near == needs
}

/// Gathers what needs give to a head: what the pairs of one need are, or what is found by a search.
fn given(
    alloc: Global,
    needs: &[Need<'_>],
    head: &[Term],
    gathered: &mut Gathered,
) -> Result<(), JoinFault>
    requires needs { All CanBeFitted needs.now }
    requires covered { IsCovered needs.now head.now }
    requires gathered { IsGathered gathered.old }
    requires width { length head.now ≡ gathered.old.known.width }
    ensures ok { OnOk result (Gathers (IsGiven needs.now head.now) gathered.old gathered.new) }
    ensures many { result ≡ Err JoinFault.TooMany → AreMoreThan gathered.old.limit
        (λ tuple. Has gathered.old tuple ⊎ IsGiven needs.now head.now tuple) }
{
    if is_direct(needs, head) {
        return listed(needs, head, gathered);
    }
    searched(alloc, needs, head, gathered)
}

/// Gathers what the pairs of one need are.
fn listed(needs: &[Need<'_>], head: &[Term], gathered: &mut Gathered) -> Result<(), JoinFault>
    requires direct { IsDirect needs.now head.now }
    requires needs { All CanBeFitted needs.now }
    requires gathered { IsGathered gathered.old }
    requires width { length head.now ≡ gathered.old.known.width }
    ensures ok { OnOk result (Gathers (IsGiven needs.now head.now) gathered.old gathered.new) }
    ensures many { result ≡ Err JoinFault.TooMany → AreMoreThan gathered.old.limit
        (λ tuple. Has gathered.old tuple ⊎ IsGiven needs.now head.now tuple) }
{
    let need = needs[0];
    gathered.add_rows(need.pairs, need.column, head.len())
}

/// Gathers what needs give to a head.
fn searched(
    alloc: Global,
    needs: &[Need<'_>],
    head: &[Term],
    gathered: &mut Gathered,
) -> Result<(), JoinFault>
    requires needs { All CanBeFitted needs.now }
    requires covered { IsCovered needs.now head.now }
    requires gathered { IsGathered gathered.old }
    requires width { length head.now ≡ gathered.old.known.width }
    ensures ok { OnOk result (Gathers (IsGiven needs.now head.now) gathered.old gathered.new) }
    ensures many { result ≡ Err JoinFault.TooMany → AreMoreThan gathered.old.limit
        (λ tuple. Has gathered.old tuple ⊎ IsGiven needs.now head.now tuple) }
{
    let order = order_of(alloc, needs, head)?;
    let turned = turned_lists(alloc, order.as_slice(), needs)?;
    let fitted = fitted_needs(alloc, order.as_slice(), needs, turned.as_slice())?;
    let mut spare = Vec::new(alloc);
    search(
        alloc,
        order.as_slice(),
        fitted.as_slice(),
        head,
        &mut spare,
        gathered,
    )?;
    Ok(())
}

/// Pairs that have the names first which needs give to a variable of theirs: those of a lone need, or those made.
fn names_of<'a>(needs: &'a [Need<'_>], made: &'a [Pair], var: u8, lone: bool) -> &'a [Pair]
    requires needs { All CanBeFitted needs.now }
    requires lone { lone ≡ true → IsLone var needs.now }
    requires made { lone ≡ false → HasNames var needs.now made.now }
    ensures { HasNames var needs.now result.now }
{
    if lone {
        let need = needs[0];
        return need.pairs;
    }
    made
}

/// The names that needs give to a variable of theirs, first in pairs, where no lone need has them first.
fn made_names(
    alloc: Global,
    needs: &[Need<'_>],
    var: u8,
    lone: bool,
) -> Result<List<Pair>, NoMemory>
    requires needs { All CanBeFitted needs.now }
    requires some { Any (Mentions var) needs.now }
    ensures { IfOk result (λ list. lone ≡ false → HasNames var needs.now list) }
{
    if lone {
        return Ok(List::new(alloc));
    }
    if is_last(needs, var) {
        return last_names(alloc, needs, var);
    }
    searched_names(alloc, needs, var)
}

/// The pairs of one need turned, so that its second names are first.
fn last_names(alloc: Global, needs: &[Need<'_>], var: u8) -> Result<List<Pair>, NoMemory>
    requires last { IsLast var needs.now }
    requires needs { All CanBeFitted needs.now }
    ensures { IfOk result (λ list. HasNames var needs.now list) }
{
    let need = needs[0];
    let list = turned(alloc, need.pairs)?;
    Ok(list)
}

/// The names that needs give to a variable of theirs, found by a search, each twice as a pair.
fn searched_names(alloc: Global, needs: &[Need<'_>], var: u8) -> Result<List<Pair>, NoMemory>
    requires needs { All CanBeFitted needs.now }
    requires some { Any (Mentions var) needs.now }
    ensures { IfOk result (λ list. HasNames var needs.now list) }
{
    let head = [Term::Var(var)];
    let mut gathered = Gathered::new(alloc, 1, u64::MAX);
    let Ok(()) = searched(alloc, needs, &head, &mut gathered) else {
        return Err(NoMemory);
    };
    let Ok(tuples) = gathered.finish() else {
        return Err(NoMemory);
    };
    let pairs = doubled(alloc, &tuples)?;
    Ok(set_of(List::of(pairs)))
}

/// The first name of each tuple, twice as a pair.
fn doubled(alloc: Global, tuples: &Tuples) -> Result<Vec<Pair>, AllocError>
    requires { tuples.now.width ≡ 1 }
    ensures { IfOk result (λ pairs. pairs.items ≡ map doubled_name tuples.now.tuples) }
{
    let mut pairs = Vec::new(alloc);
    for i in 0..tuples.len() {
        let name = tuples.name(i, 0);
        pairs.push((name, name))?;
    }
    Ok(pairs)
}
