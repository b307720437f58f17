// The search: one variable at a time, over the names that every need of it allows.
ghost use Rattle.std.specs.Prelude.{◌≡◌, ◌≢◌, ℕ, ◌<◌, ◌≤◌, ◌++◌, List, [], length, map, take, filter, ◌==◌, not, IsTrue, OnOk, IfOk, IfSome, IfNone, ◌⊎◌};
ghost use Rattle.std.specs.List.{All};
ghost use Rattle.dl_join.specs.Needs.{IsAscending, Allows, Stands, AreMoved, AddsNarrowed};
ghost use Rattle.dl_join.specs.Searching.{IsGiven, IsReady, IsLevel, IsName, named};
ghost use Rattle.dl_join.specs.Gathering.{Has, IsGathered, Gathers};
ghost use Rattle.dl_join.specs.Tuples.{AreMoreThan};

use crate::JoinFault;
use crate::gather::Gathered;
use crate::meet::{divide, meet, narrow};
use crate::need::Need;
use dl_terms::Term;
use std::alloc::{AllocError, Global};

/// Room for the search at one variable, which is used again: the needs of the variable, those of later ones, and
/// the head with a name for the variable.
#[derive(Drop)]
pub struct Room<'a> {
    active: Vec<Need<'a>>,
    later: Vec<Need<'a>>,
    head: Vec<Term>,
}

impl<'a> Room<'a> {
    fn new(alloc: Global) -> Room<'a> {
        Room {
            active: Vec::new(alloc),
            later: Vec::new(alloc),
            head: Vec::new(alloc),
        }
    }

    /// Divides needs into those of a variable and those of later ones.
    fn fill(&mut self, needs: &[Need<'a>], var: u8) -> Result<(), AllocError>
        ensures active { OnOk result (self.new.active.items ≡ filter (λ n. n.at == var) needs.now) }
        ensures later { OnOk result (self.new.later.items ≡ filter (λ n. not (n.at == var)) needs.now) }
    {
        self.active.clear();
        self.later.clear();
        divide(needs, var, &mut self.active, &mut self.later)
    }

    /// The least name, from a number on, that each need of the variable allows.
    fn next(&mut self, from: u64) -> Option<u32>
        requires ascending { All IsAscending self.old.active.items }
        requires some { 0 < length self.old.active.items }
        ensures later { self.new.later.items ≡ self.old.later.items }
        ensures reached { IfSome result (λ name. from ≤ name) }
        ensures moved { IfSome result (λ name. AreMoved name self.old.active.items self.new.active.items) }
        ensures stand { IfSome result (λ name. All (Stands name name) self.new.active.items) }
        ensures least { IfSome result (λ name.
            (x : ℕ) → from ≤ x → All (Allows x) self.old.active.items → name ≤ x) }
        ensures none { IfNone result ((x : ℕ) → from ≤ x → All (Allows x) self.old.active.items → ⊥) }
    {
        meet(self.active.as_mut_slice(), from)
    }

    /// Leaves of the later needs the first ones, and adds what is asked at a name; names the head.
    fn enter(&mut self, kept: usize, head: &[Term], var: u8, name: u32) -> Result<(), AllocError>
        requires { All (Stands name name) self.old.active.items }
        ensures active { OnOk result (self.new.active.items ≡ self.old.active.items) }
        ensures later { OnOk result
            (AddsNarrowed name self.old.active.items (take kept self.old.later.items) self.new.later.items) }
        ensures head { OnOk result (self.new.head.items ≡ map (named var name) head.now) }
    {
        self.later.truncate(kept);
        narrow(self.active.as_slice(), name, &mut self.later)?;
        name_head(head, var, name, &mut self.head)
    }
}

/// The head with a name for a variable.
fn name_head(head: &[Term], var: u8, name: u32, copy: &mut Vec<Term>) -> Result<(), AllocError>
    ensures { OnOk result (copy.new.items ≡ map (named var name) head.now) }
{
    copy.clear();
    for term in head {
        copy.push(name_term(*term, var, name))?;
    }
    Ok(())
}

/// A term with a name for a variable.
fn name_term(term: Term, var: u8, name: u32) -> Term
    ensures { result ≡ named var name term }
{
    match term {
        Term::Var(v) => {
            if v == var {
                Term::Name(name)
            } else {
                Term::Var(v)
            }
        }
        Term::Name(a) => Term::Name(a),
    }
}

/// True where a head has no variable.
fn is_closed(head: &[Term]) -> bool
    ensures { IsTrue result → All IsName head.now }
{
    for term in head {
        if let Term::Var(_) = term {
            return false;
        }
    }
    true
}

/// Gathers the tuples that names for the variables, which are tried in order, give to the head while the needs
/// hold. True where there is one.
#[cycle(search)]
pub fn search<'a>(
    alloc: Global,
    order: &[u8],
    needs: &[Need<'a>],
    head: &[Term],
    spare: &mut Vec<Room<'a>>,
    gathered: &mut Gathered,
) -> Result<bool, JoinFault>
    requires ready { IsReady order.now needs.now head.now }
    requires gathered { IsGathered gathered.old }
    requires width { length head.now ≡ gathered.old.known.width }
    ensures ok { OnOk result (Gathers (IsGiven needs.now head.now) gathered.old gathered.new) }
    ensures some { IfOk result (λ found. IsTrue found →
        (tuple : List ℕ) × IsGiven needs.now head.now tuple) }
    ensures many { result ≡ Err JoinFault.TooMany → AreMoreThan gathered.old.limit
        (λ tuple. Has gathered.old tuple ⊎ IsGiven needs.now head.now tuple) }
{
    let Some((var, others)) = order.split_first() else {
        gathered.add(head)?;
        return Ok(true);
    };
    let mut room = match spare.pop() {
        Some(room) => room,
        None => Room::new(alloc),
    };
    room.fill(needs, *var)?;
    if room.active.is_empty() {
        return search(alloc, others, needs, head, spare, gathered);
    }
    let found = each_name(alloc, *var, others, head, &mut room, spare, gathered)?;
    spare.push(room).map_err(AllocError::from)?;
    Ok(found)
}

/// Gathers the tuples for each name of a variable.
#[cycle(search)]
fn each_name<'a>(
    alloc: Global,
    var: u8,
    others: &[u8],
    head: &[Term],
    room: &mut Room<'a>,
    spare: &mut Vec<Room<'a>>,
    gathered: &mut Gathered,
) -> Result<bool, JoinFault>
    requires level { IsLevel var others.now room.old.active.items room.old.later.items head.now }
    requires gathered { IsGathered gathered.old }
    requires width { length head.now ≡ gathered.old.known.width }
    ensures ok { OnOk result
        (Gathers (IsGiven (room.old.active.items ++ room.old.later.items) head.now) gathered.old gathered.new) }
    ensures some { IfOk result (λ found. IsTrue found →
        (tuple : List ℕ) × IsGiven (room.old.active.items ++ room.old.later.items) head.now tuple) }
    ensures many { result ≡ Err JoinFault.TooMany → AreMoreThan gathered.old.limit
        (λ tuple. Has gathered.old tuple ⊎ IsGiven (room.old.active.items ++ room.old.later.items) head.now tuple) }
{
    let kept = room.later.len();
    let closed = is_closed(head);
    let mut found = false;
    let mut from: u64 = 0;
    while let Some(name) = room.next(from) {
        room.enter(kept, head, var, name)?;
        found |= search(alloc, others, &room.later, &room.head, spare, gathered)?;
        if closed && found {
            return Ok(true);
        }
        from = u64::from(name) + 1;
    }
    Ok(found)
}
