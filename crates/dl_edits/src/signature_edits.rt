// What edits make of a signature.
ghost use Rattle.std.specs.Prelude.{◌≡◌, ◌++◌, List as AnyList, All, IfOk, OnOk};
ghost use Rattle.std.specs.List.{flat_map};
ghost use Rattle.dl_terms.specs.declared.axiom.Axiom.{Axiom as AnyAxiom};
ghost use Rattle.dl_epoch.specs.Known.{IsAxiomIn, IsSignature};
ghost use Rattle.dl_edits.specs.Edits.{edited_axioms, edited_signature as signature_after};
ghost use Rattle.dl_edits.specs.Names.{item_classes, item_properties, added_classes, added_properties};

use dl_epoch::{copied_signature, push_axiom, push_fact};
use dl_event::{Edit, Item};
use dl_terms::{NoMemory, Signature, set_of};
use std::alloc::Global;

/// The signature after edits: it gains each name of an added item. It fails only for want of memory.
pub fn edited_signature(
    alloc: Global,
    signature: &Signature,
    edits: &[Edit],
) -> Result<Signature, NoMemory>
    requires { IsSignature signature.now }
    ensures edited { IfOk result (λ after. after ≡ signature_after edits.now signature.now) }
    ensures signature { IfOk result IsSignature }
    ensures known { (axioms : AnyList AnyAxiom) → All (IsAxiomIn signature.now) axioms
        → IfOk result (λ after. All (IsAxiomIn after) (edited_axioms edits.now axioms)) }
{
    let mut names = copied_signature(alloc, signature)?;
    push_edits(&mut names, edits)?;
    let Signature { classes, roles } = names;
    Ok(Signature {
        classes: set_of(classes),
        roles: set_of(roles),
    })
}

/// Adds the names of the added items at the end.
fn push_edits(names: &mut Signature, edits: &[Edit]) -> Result<(), NoMemory>
    ensures classes { OnOk result (names.new.classes ≡ names.old.classes ++ flat_map added_classes edits.now) }
    ensures roles { OnOk result (names.new.roles ≡ names.old.roles ++ flat_map added_properties edits.now) }
{
    for edit in edits {
        push_edit(names, edit)?;
    }
    Ok(())
}

/// Adds the names of an item at the end, if it is added.
fn push_edit(names: &mut Signature, edit: &Edit) -> Result<(), NoMemory>
    ensures classes { OnOk result (names.new.classes ≡ names.old.classes ++ added_classes edit.now) }
    ensures roles { OnOk result (names.new.roles ≡ names.old.roles ++ added_properties edit.now) }
{
    if edit.add {
        return push_item(names, &edit.item);
    }
    Ok(())
}

/// Adds the names of an item at the end.
fn push_item(names: &mut Signature, item: &Item) -> Result<(), NoMemory>
    ensures classes { OnOk result (names.new.classes ≡ names.old.classes ++ item_classes item.now) }
    ensures roles { OnOk result (names.new.roles ≡ names.old.roles ++ item_properties item.now) }
{
    match item {
        Item::Axiom(axiom) => push_axiom(names, axiom),
        Item::Fact(fact) => push_fact(names, *fact),
        Item::Class(class) => names.classes.push(*class),
        Item::Property(property) => names.roles.push(*property),
    }
}
