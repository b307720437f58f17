// What edits make of a set of axioms.
ghost use Rattle.std.specs.Prelude.{◌≡◌, All, IfOk, OnOk, OnErr};
ghost use Rattle.std.specs.List.{list_any};
ghost use Rattle.std.specs.List.Sorted.{IsStrictlySortedBy};
ghost use Rattle.dl_terms.specs.Auxiliaries.{HasNoAuxiliary};
ghost use Rattle.dl_terms.specs.Order.{axiom_cmp};
ghost use Rattle.dl_edits.specs.Decided.{is_axiom};
ghost use Rattle.dl_edits.specs.Edits.{axioms_with, edited_axioms as axioms_after};
ghost use Rattle.dl_event.specs.Auxiliaries.{ItemHasNoAuxiliary};

use dl_epoch::{copied_axiom, copied_axioms};
use dl_event::{Edit, Item};
use dl_terms::{Axiom, List, NoMemory, axioms_are_ordered};
use std::alloc::Global;
use std::collections::BTreeSet;

/// The axioms after edits, one edit after another. The axioms ascend strictly. It fails only for want of memory.
pub fn edited_axioms(
    alloc: Global,
    axioms: &[Axiom],
    edits: &[Edit],
) -> Result<List<Axiom>, NoMemory>
    requires { IsStrictlySortedBy axiom_cmp axioms.now }
    ensures edited { IfOk result (λ after. after ≡ axioms_after edits.now axioms.now) }
    ensures ascending { IfOk result (λ after. IsStrictlySortedBy axiom_cmp after) }
    ensures no_auxiliary { All HasNoAuxiliary axioms.now → All (λ e. ItemHasNoAuxiliary e.item) edits.now
        → IfOk result (λ after. All HasNoAuxiliary after) }
{
    // Most commits edit facts alone.
    if !has_axiom(edits) {
        return copied_axioms(alloc, axioms);
    }
    let set = edited_set(alloc, axioms, edits)?;
    axioms_are_ordered();
    let after: Vec<Axiom> = set.into_iter().collect(alloc)?;
    Ok(List::of(after))
}

/// Whether an edit is of an axiom.
fn has_axiom(edits: &[Edit]) -> bool
    ensures { result ≡ list_any (λ e. is_axiom e.item) edits.now }
{
    for edit in edits {
        if let Item::Axiom(_) = &edit.item {
            return true;
        }
    }
    false
}

/// The axioms after edits, as a set.
fn edited_set(alloc: Global, axioms: &[Axiom], edits: &[Edit]) -> Result<BTreeSet<Axiom>, NoMemory>
    requires { IsStrictlySortedBy axiom_cmp axioms.now }
    ensures { IfOk result (λ set. set.keys ≡ axioms_after edits.now axioms.now) }
{
    let mut set = axiom_set(alloc, axioms)?;
    for edit in edits {
        make_edit(alloc, &mut set, edit)?;
    }
    Ok(set)
}

/// The same axioms as a set.
fn axiom_set(alloc: Global, axioms: &[Axiom]) -> Result<BTreeSet<Axiom>, NoMemory>
    requires { IsStrictlySortedBy axiom_cmp axioms.now }
    ensures { IfOk result (λ set. set.keys ≡ axioms.now) }
{
    axioms_are_ordered();
    let mut set = BTreeSet::new(alloc);
    for axiom in axioms {
        let copy = copied_axiom(alloc, axiom)?;
        let Ok(_) = set.insert(copy) else {
            return Err(NoMemory);
        };
    }
    Ok(set)
}

/// Makes one edit of the set. After `NoMemory` the set is as before.
fn make_edit(alloc: Global, set: &mut BTreeSet<Axiom>, edit: &Edit) -> Result<(), NoMemory>
    requires { IsStrictlySortedBy axiom_cmp set.old.keys }
    ensures ok { OnOk result (set.new.keys ≡ axioms_with edit.now.add edit.now.item set.old.keys) }
    ensures err { OnErr result (set.new.keys ≡ set.old.keys) }
    ensures ascending { IsStrictlySortedBy axiom_cmp set.new.keys }
{
    axioms_are_ordered();
    let Item::Axiom(axiom) = &edit.item else {
        return Ok(());
    };
    if !edit.add {
        set.remove(axiom);
        return Ok(());
    }
    let copy = copied_axiom(alloc, axiom)?;
    let Ok(_) = set.insert(copy) else {
        return Err(NoMemory);
    };
    Ok(())
}
