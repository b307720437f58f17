ghost use Rattle.std.specs.Prelude.{◌≡◌, [], ◌∷◌, ◌++◌, IfOk, OnOk};
ghost use Rattle.dl_terms.specs.NormalForm.{negatives, axiom_negatives, nothing_negative};
ghost use Rattle.dl_deny.specs.Denied.{denials_of};

use crate::copied::copy_of;
use crate::excluded::query_of;
use dl_normal::normal;
use dl_terms::{Axiom, Basic, List, Negative, NoMemory, Query};
use std::alloc::Global;

/// What no model has, as a query without head, beside the axiom that says so. `None` stands for `owl:Nothing`.
#[derive(Drop, PartialEq, Eq)]
pub struct Denial {
    pub axiom: Option<Axiom>,
    pub query: Query,
}

/// The queries of the negatives of the axioms, each beside its axiom, in the order of the normal form; and last, where
/// `owl:Nothing` is a name of the run, whose number is then `nothing`, that nothing is in it. Fails only for want of
/// memory.
pub fn denials(
    alloc: Global,
    axioms: &[Axiom],
    nothing: Option<u32>,
) -> Result<List<Denial>, NoMemory>
    ensures { IfOk result (λ found. found ≡ denials_of (negatives axioms.now nothing)) }
{
    let mut found = List::new(alloc);
    for axiom in axioms {
        push_axiom(alloc, &mut found, axiom)?;
    }
    push_nothing(alloc, &mut found, nothing)?;
    Ok(found)
}

/// Adds the denials of an axiom: those of the negatives of its normal form.
fn push_axiom(alloc: Global, found: &mut List<Denial>, axiom: &Axiom) -> Result<(), NoMemory>
    ensures { OnOk result (found.new ≡ found.old ++ denials_of (axiom_negatives «axiom».now)) }
{
    let form = normal(alloc, std::slice::from_ref(axiom))?;
    for (_, negative) in form.negatives.as_slice() {
        push_denial(alloc, found, axiom, *negative)?;
    }
    Ok(())
}

/// Adds the denial of one negative of an axiom.
fn push_denial(
    alloc: Global,
    found: &mut List<Denial>,
    axiom: &Axiom,
    negative: Negative,
) -> Result<(), NoMemory>
    ensures { OnOk result (found.new ≡ found.old ++ denials_of ((Some «axiom».now, negative) ∷ [])) }
{
    let copy = copy_of(alloc, axiom)?;
    let query = query_of(alloc, negative)?;
    found.push(Denial {
        axiom: Some(copy),
        query,
    })
}

/// Adds that nothing is in `owl:Nothing`, where that is a name.
fn push_nothing(
    alloc: Global,
    found: &mut List<Denial>,
    nothing: Option<u32>,
) -> Result<(), NoMemory>
    ensures { OnOk result (found.new ≡ found.old ++ denials_of (nothing_negative nothing)) }
{
    let Some(class) = nothing else {
        return Ok(());
    };
    let query = query_of(
        alloc,
        Negative::Basics(Basic::Class(class), Basic::Class(class)),
    )?;
    found.push(Denial { axiom: None, query })
}
