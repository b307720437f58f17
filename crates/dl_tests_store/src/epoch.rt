// Epochs of small ontologies: their numbers, names of one as numbers of another, and which of them covers a version.
ghost use Rattle.std.specs.Prelude.{◌≡◌, ◌∷◌, [], length, All, IfOk};
ghost use Rattle.std.specs.Arc.{arc_value};
ghost use Rattle.std.specs.List.Sorted.{IsStrictlySortedBy};
ghost use Rattle.dl_terms.specs.Auxiliaries.{HasNoAuxiliary};
ghost use Rattle.dl_terms.specs.Order.{axiom_cmp};
ghost use Rattle.dl_terms.specs.declared.role.Basic.TheVariants as basic;
ghost use Rattle.dl_terms.specs.declared.axiom.Part.TheVariants as part;
ghost use Rattle.dl_terms.specs.declared.axiom.Axiom.TheVariants.{SubClass};
ghost use Rattle.dl_epoch.specs.Known.{IsAxiomIn};

use crate::intervals::are;
use dl_epoch::{Entry, Epoch, Epochs, Ranges, fits};
use dl_hier::Below;
use dl_terms::{Axiom, Basic, List, NoMemory, Part, Signature};
use dl_tests_base::axioms::list_of;
use std::alloc::{AllocError, Global};
use std::sync::Arc;

/// The classes A, AA and B, in name order.
pub(crate) const A: u32 = 0;

pub(crate) const AA: u32 = 1;

pub(crate) const B: u32 = 2;

/// The roles N and P, in name order.
pub(crate) const N: u32 = 3;

pub(crate) const P: u32 = 4;

/// No name of an epoch.
const UNKNOWN: u32 = 5;

/// Classes, roles, and roles whose inverse is meant.
pub(crate) type Asked = (&'static [u32], &'static [u32], &'static [u32]);

/// What is asked, with these predicates.
pub(crate) fn below_of(alloc: Global, asked: &Asked) -> Result<Below, AllocError> {
    Ok(Below {
        classes: list_of(alloc, asked.0)?,
        forward: list_of(alloc, asked.1)?,
        backward: list_of(alloc, asked.2)?,
    })
}

/// The axiom that one class is in another.
pub(crate) fn inclusion(alloc: Global, sub: u32, sup: u32) -> Result<Axiom, AllocError>
    ensures { IfOk result (λ a. a ≡ SubClass (basic.Class sub) (part.Class sup ∷ [])) }
{
    Ok(Axiom::SubClass {
        sub: Basic::Class(sub),
        sup: List::of(Vec::from_slice(alloc, &[Part::Class(sup)])?),
    })
}

/// The epoch of axioms and a signature; none where they don't fit.
fn epoch_of(
    alloc: Global,
    id: u32,
    axioms: &[Axiom],
    signature: &Signature,
) -> Result<Option<Epoch>, NoMemory>
    requires ascending { IsStrictlySortedBy axiom_cmp axioms.now }
    requires no_auxiliary { All HasNoAuxiliary axioms.now }
    requires known { All (IsAxiomIn signature.now) axioms.now }
{
    if !fits(alloc, axioms, signature)? {
        return Ok(None);
    }
    Ok(Some(Epoch::build(alloc, id, axioms, signature)?))
}

/// The epoch with the id 1: the classes A and B, the role P, and each A is a B.
#[tactic(auto, using(crate::proofs::EpochLemmas::one_ascends))]
fn first_epoch(alloc: Global) -> Result<Option<Epoch>, NoMemory> {
    let signature = Signature {
        classes: List::of(Vec::from_slice(alloc, &[A, B])?),
        roles: List::of(Vec::from_slice(alloc, &[P])?),
    };
    let axiom = inclusion(alloc, A, B)?;
    epoch_of(alloc, 1, &[axiom], &signature)
}

/// The epoch with the id 2: the classes A, AA and B, the roles N and P, and no axiom.
#[tactic(auto, using(crate::proofs::EpochLemmas::none_ascends))]
fn second_epoch(alloc: Global) -> Result<Option<Epoch>, NoMemory> {
    let signature = Signature {
        classes: List::of(Vec::from_slice(alloc, &[A, AA, B])?),
        roles: List::of(Vec::from_slice(alloc, &[N, P])?),
    };
    epoch_of(alloc, 2, &[], &signature)
}

/// Both epochs: the first covers versions from 3 on, and the second from 7 on.
pub(crate) fn both_epochs(alloc: Global) -> Result<Option<Epochs>, NoMemory> {
    let Some(one) = first_epoch(alloc)? else {
        return Ok(None);
    };
    let Some(two) = second_epoch(alloc)? else {
        return Ok(None);
    };
    in_order(alloc, one, two)
}

/// Two epochs as entries; none where their ids don't ascend.
fn in_order(alloc: Global, one: Epoch, two: Epoch) -> Result<Option<Epochs>, NoMemory> {
    if one.id() != 1 || two.id() != 2 {
        return Ok(None);
    }
    let mut entries = List::new(alloc);
    entries.push(entry_of(alloc, one, 3)?)?;
    entries.push(entry_of(alloc, two, 7)?)?;
    Ok(Some(Epochs::of(entries)))
}

/// An epoch and its first version as an entry.
fn entry_of(alloc: Global, epoch: Epoch, first: u32) -> Result<Entry, NoMemory>
    ensures epoch { IfOk result (λ e. arc_value e.epoch ≡ epoch) }
    ensures first { IfOk result (λ e. e.first ≡ first) }
{
    let Ok(epoch) = Arc::new(alloc, epoch) else {
        return Err(NoMemory);
    };
    Ok(Entry {
        epoch,
        first,
        rows: 0,
    })
}

/// What is asked, and its numbers in the second epoch, as intervals: of classes, roles, and inverses of roles.
type Translated = (
    Asked,
    &'static [(u32, u32)],
    &'static [(u32, u32)],
    &'static [(u32, u32)],
);

const TRANSLATED: [Translated; 4] = [
    ((&[A, B], &[], &[]), &[(1, 1), (3, 3)], &[], &[]),
    ((&[AA, B], &[N, P], &[P]), &[(2, 3)], &[(1, 2)], &[(2, 2)]),
    // Names that the epoch lacks.
    (
        (&[UNKNOWN], &[A, N, UNKNOWN], &[UNKNOWN]),
        &[],
        &[(1, 1)],
        &[],
    ),
    ((&[], &[], &[]), &[], &[], &[]),
];

/// Whether these are the intervals of classes, roles and inverses.
fn have(ranges: &Ranges, wanted: &Translated) -> bool {
    are(&ranges.classes, wanted.1)
        && are(&ranges.forward, wanted.2)
        && are(&ranges.backward, wanted.3)
}

/// Whether an epoch has the numbers that each row says.
fn translates(alloc: Global, epoch: &Epoch, table: &[Translated]) -> Result<bool, NoMemory> {
    for row in table {
        let below = below_of(alloc, &row.0)?;
        if !have(&epoch.translate(alloc, &below)?, row) {
            return Ok(false);
        }
    }
    Ok(true)
}

/// A name, and its number as a class and as a role of the second epoch.
const NUMBERED: [(u32, Option<u32>, Option<u32>); 6] = [
    (A, Some(1), None),
    (AA, Some(2), None),
    (B, Some(3), None),
    (N, None, Some(1)),
    (P, None, Some(2)),
    (UNKNOWN, None, None),
];

/// Whether names have the numbers that a table says.
fn are_numbered(epoch: &Epoch, table: &[(u32, Option<u32>, Option<u32>)]) -> bool {
    for row in table {
        if epoch.class_number(row.0) != row.1 || epoch.role_number(row.0) != row.2 {
            return false;
        }
    }
    true
}

/// Whether the numbers of a class and of a role are theirs.
fn are_named(epoch: &Epoch, class: u32, role: u32) -> bool {
    let (Some(one), Some(two)) = (epoch.class_number(class), epoch.role_number(role)) else {
        return false;
    };
    epoch.class_name(one) == class && epoch.role_name(two) == role
}

/// Whether an epoch has so many axioms and these classes.
fn has(epoch: &Epoch, axioms: usize, classes: &[u32]) -> bool {
    epoch.axioms().len() == axioms && epoch.signature().classes.as_slice() == classes
}

/// Versions, and the place of the epoch that covers each.
const COVERED: [(u32, u32); 6] = [(3, 0), (4, 0), (6, 0), (7, 1), (8, 1), (u32::MAX, 1)];

/// The place of the epoch that covers a version; none where none does.
pub(crate) fn covering(epochs: &Epochs, version: u32) -> Option<u32> {
    let entries = epochs.entries();
    if entries.is_empty() || entries[0].first > version {
        return None;
    }
    Some(epochs.covering(version))
}

/// Whether versions are covered as a table says.
fn are_covered(epochs: &Epochs, table: &[(u32, u32)]) -> bool {
    for row in table {
        if covering(epochs, row.0) != Some(row.1) {
            return false;
        }
    }
    true
}

/// Whether what is below B in the first epoch has its numbers in the second one.
fn translates_below(alloc: Global, one: &Epoch, two: &Epoch) -> Result<bool, NoMemory> {
    let below = one.hier().predicates_below(alloc, &[Basic::Class(B)])?;
    Ok(have(&two.translate(alloc, &below)?, &TRANSLATED[0]))
}

/// What is below B in the first epoch, where A is below it: B has the number 1, and A 2.
const BELOW_B: Translated = ((&[A, B], &[], &[]), &[(1, 2)], &[], &[]);

/// Whether what is below B in the first epoch has one interval there.
fn translates_own(alloc: Global, one: &Epoch) -> Result<bool, NoMemory> {
    let below = one.hier().predicates_below(alloc, &[Basic::Class(B)])?;
    Ok(have(&one.translate(alloc, &below)?, &BELOW_B))
}

/// Whether both epochs agree with the tables.
fn agree(alloc: Global) -> Result<bool, NoMemory> {
    let Some(epochs) = both_epochs(alloc)? else {
        return Ok(false);
    };
    let [one, two] = epochs.entries() else {
        return Ok(false);
    };
    Ok(
        are_covered(&epochs, &COVERED)
            && has(&one.epoch, 1, &[A, B])
            && has(&two.epoch, 0, &[A, AA, B])
            && are_numbered(&two.epoch, &NUMBERED)
            && are_named(&one.epoch, B, P)
            && are_named(&two.epoch, B, P)
            && translates(alloc, &two.epoch, &TRANSLATED)?
            && translates_below(alloc, &one.epoch, &two.epoch)?
            && translates_own(alloc, &one.epoch)?,
    )
}

#[test]
fn epochs_number_translate_and_cover(rt: HostRuntime) {
    assert!(rt; matches!(agree(rt.alloc()), Ok(true)));
}
