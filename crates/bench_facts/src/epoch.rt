// Epochs, built.
ghost use Rattle.std.specs.Prelude.{◌≡◌, ◌∷◌, [], ◌<◌, length, All, Contains, IfOk};
ghost use Rattle.std.specs.List.Sorted.{IsStrictlySortedBy};
ghost use Rattle.dl_terms.specs.Auxiliaries.{HasNoAuxiliary};
ghost use Rattle.dl_terms.specs.Order.{axiom_cmp};
ghost use Rattle.dl_terms.specs.Roles.{named};
ghost use Rattle.dl_terms.specs.Sets.{IsSetOf};
ghost use Rattle.dl_terms.specs.declared.role.Basic.TheVariants as basic;
ghost use Rattle.dl_terms.specs.declared.axiom.Part.TheVariants as part;
ghost use Rattle.dl_terms.specs.declared.axiom.Axiom.TheVariants.{SubClass};
ghost use Rattle.dl_epoch.specs.Known.{IsAxiomIn};

use crate::join::mixed;
use crate::rows::number_of;
use dl_epoch::{Epoch, fits};
use dl_normal::weight;
use dl_terms::{
    Axiom, Base, Basic, List, NoMemory, Part, Role, Signature, axioms_are_ordered, set_of,
};
use std::alloc::{AllocError, Global};
use std::io;

/// What `run` takes: how many classes and roles there are, how many inclusions are drawn, each of a predicate in a
/// smaller one, or any way in a tangle, and how often the epoch is built.
pub const WORDS: &str = "epoch tree|tangle CLASSES ROLES INCLUSIONS ROUNDS";

/// Builds the epoch that the words say, and prints its weight. False where the words say nothing, or a number is out of
/// range.
pub fn run<R: AllocGlobal + Print>(rt: &R, words: &[String]) -> io::Result<bool> {
    let (Some(shape), Some(classes), Some(roles), Some(inclusions), Some(rounds)) = (
        words.get(1),
        number_of(words, 2),
        number_of(words, 3),
        number_of(words, 4),
        number_of(words, 5),
    ) else {
        return Ok(false);
    };
    let tangle = shape.as_str() == "tangle";
    let built = built(rt.alloc(), tangle, classes, roles, inclusions, rounds).map_err(
        |_refused| AllocError,
    )?;
    let Some(weight) = built else {
        return Ok(false);
    };
    println!(rt; "weight {weight}")?;
    Ok(true)
}

/// The numbers below a bound.
fn numbers(alloc: Global, bound: u32) -> Result<List<u32>, NoMemory> {
    let mut numbers = List::new(alloc);
    for number in 0..bound {
        numbers.push(number)?;
    }
    Ok(numbers)
}

/// One of some names.
fn name_of(names: &[u32], drawn: u64) -> u32
    requires { 0 < length names.now }
    ensures { Contains names.now result }
{
    let place = drawn % names.len() as u64;
    names[place as usize]
}

/// Two of some names that look like drawn: the first is the greater one where they don't tangle.
fn two_of(names: &[u32], tangle: bool, drawn: u64) -> (u32, u32)
    requires { 0 < length names.now }
    ensures first { Contains names.now result.0 }
    ensures second { Contains names.now result.1 }
{
    let (one, other) = (
        name_of(names, drawn >> 32),
        name_of(names, drawn & 0xFFFF_FFFF),
    );
    if tangle || one > other {
        return (one, other);
    }
    (other, one)
}

/// One class in another.
fn class_inclusion(alloc: Global, names: (u32, u32)) -> Result<Axiom, NoMemory>
    ensures { IfOk result (λ a. a ≡ SubClass (basic.Class names.0) (part.Class names.1 ∷ [])) }
{
    let mut sup = List::new(alloc);
    sup.push(Part::Class(names.1))?;
    Ok(Axiom::SubClass {
        sub: Basic::Class(names.0),
        sup,
    })
}

/// An object property.
fn property(name: u32) -> Role
    ensures { result ≡ named name }
{
    Role {
        base: Base::Named(name),
        inverse: false,
    }
}

/// An inclusion between two predicates of a signature that look like drawn.
fn inclusion(alloc: Global, signature: &Signature, tangle: bool, i: u32) -> Result<Axiom, NoMemory>
    requires classes { 0 < length signature.now.classes }
    requires roles { 0 < length signature.now.roles }
    ensures no_auxiliary { IfOk result HasNoAuxiliary }
    ensures known { IfOk result (IsAxiomIn signature.now) }
{
    let (classes, roles) = (signature.classes.as_slice(), signature.roles.as_slice());
    let drawn = mixed(u64::from(i));
    let place = mixed(drawn) as usize % (classes.len() + roles.len());
    if place < classes.len() {
        return class_inclusion(alloc, two_of(classes, tangle, drawn));
    }
    let (sub, sup) = two_of(roles, tangle, drawn);
    Ok(Axiom::SubRole {
        sub: property(sub),
        sup: property(sup),
    })
}

/// The set of axioms.
fn axiom_set(axioms: List<Axiom>) -> List<Axiom>
    ensures { IsSetOf axiom_cmp result axioms }
{
    axioms_are_ordered();
    set_of(axioms)
}

/// The set of so many inclusions.
fn inclusions(
    alloc: Global,
    signature: &Signature,
    tangle: bool,
    count: u32,
) -> Result<List<Axiom>, NoMemory>
    requires classes { 0 < length signature.now.classes }
    requires roles { 0 < length signature.now.roles }
    ensures ascending { IfOk result (IsStrictlySortedBy axiom_cmp) }
    ensures no_auxiliary { IfOk result (All HasNoAuxiliary) }
    ensures known { IfOk result (All (IsAxiomIn signature.now)) }
{
    let mut axioms = List::new(alloc);
    for i in 0..count {
        let axiom = inclusion(alloc, signature, tangle, i)?;
        axioms.push(axiom)?;
    }
    Ok(axiom_set(axioms))
}

/// Builds the epoch of axioms and a signature some times. False where they are many.
fn build(
    alloc: Global,
    axioms: &[Axiom],
    signature: &Signature,
    rounds: u32,
) -> Result<bool, NoMemory>
    requires ascending { IsStrictlySortedBy axiom_cmp axioms.now }
    requires no_auxiliary { All HasNoAuxiliary axioms.now }
    requires known { All (IsAxiomIn signature.now) axioms.now }
{
    if !fits(alloc, axioms, signature)? {
        return Ok(false);
    }
    for _ in 0..rounds {
        Epoch::build(alloc, 1, axioms, signature)?;
    }
    Ok(true)
}

/// The weight of the axioms of which the epoch was built; none where they are many.
fn built(
    alloc: Global,
    tangle: bool,
    classes: u32,
    roles: u32,
    count: u32,
    rounds: u32,
) -> Result<Option<u64>, NoMemory> {
    let signature = Signature {
        classes: numbers(alloc, classes)?,
        roles: numbers(alloc, roles)?,
    };
    if signature.classes.len() == 0 || signature.roles.len() == 0 {
        return Ok(None);
    }
    let axioms = inclusions(alloc, &signature, tangle, count)?;
    if !build(alloc, axioms.as_slice(), &signature, rounds)? {
        return Ok(None);
    }
    Ok(Some(weight(axioms.as_slice())))
}
