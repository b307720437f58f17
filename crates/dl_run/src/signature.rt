// The signature of what is loaded.
ghost use Rattle.std.specs.Prelude.{◌≡◌, ◌++◌, IfOk, OnOk};
ghost use Rattle.std.specs.List.{flat_map};
ghost use Rattle.dl_epoch.specs.Predicates.{axiom_classes, axiom_properties, fact_classes, fact_properties};
ghost use Rattle.dl_run.specs.Signature.{IsSignatureOf};

use dl_edits::number_set;
use dl_epoch::{push_axiom, push_fact};
use dl_terms::{Axiom, Fact, List, NoMemory, Signature};

/// The signature of axioms and facts, and of the classes and object properties that are declared.
pub(crate) fn signature_of(
    axioms: &[Axiom],
    facts: &[Fact],
    classes: List<u32>,
    roles: List<u32>,
) -> Result<Signature, NoMemory>
    ensures { IfOk result (IsSignatureOf axioms.now facts.now classes roles) }
{
    let mut signature = Signature { classes, roles };
    push_axioms(&mut signature, axioms)?;
    push_facts(&mut signature, facts)?;
    let Signature { classes, roles } = signature;
    Ok(Signature {
        classes: number_set(classes),
        roles: number_set(roles),
    })
}

/// Adds the predicates of axioms.
fn push_axioms(signature: &mut Signature, axioms: &[Axiom]) -> Result<(), NoMemory>
    ensures classes { OnOk result (signature.new.classes ≡ signature.old.classes ++ flat_map axiom_classes axioms.now) }
    ensures roles { OnOk result (signature.new.roles ≡ signature.old.roles ++ flat_map axiom_properties axioms.now) }
{
    for stated in axioms {
        push_axiom(signature, stated)?;
    }
    Ok(())
}

/// Adds the predicates of facts.
fn push_facts(signature: &mut Signature, facts: &[Fact]) -> Result<(), NoMemory>
    ensures classes { OnOk result (signature.new.classes ≡ signature.old.classes ++ flat_map fact_classes facts.now) }
    ensures roles { OnOk result (signature.new.roles ≡ signature.old.roles ++ flat_map fact_properties facts.now) }
{
    for fact in facts {
        push_fact(signature, *fact)?;
    }
    Ok(())
}
