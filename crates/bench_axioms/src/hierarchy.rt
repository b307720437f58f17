// Hierarchies, built and asked.
ghost use Rattle.std.specs.Prelude.{◌<◌};

use dl_hier::{Hier, fits};
use dl_terms::{Base, Basic, List, NoMemory, Normal, Role, Signature};
use std::alloc::{AllocError, Global};
use std::io;

/// What `run` takes: as many classes as NAMES, and as many roles, of which half are auxiliary roles; how many
/// inclusions of each kind; and how often to ask.
pub const WORDS: &str = "hierarchy deep|wide|tangle NAMES INCLUSIONS ASKS";

/// Builds the hierarchy that the words say, asks it, and prints counts. False where the words say nothing, or a
/// number is out of range.
pub fn run<R: AllocGlobal + Print>(rt: &R, words: &[String]) -> io::Result<bool> {
    let (Some(shape), Some(names), Some(inclusions), Some(asks)) = (
        words.get(1),
        words.get(2),
        words.get(3),
        words.get(4),
    ) else {
        return Ok(false);
    };
    let (Ok(names), Ok(inclusions), Ok(asks)) = (
        names.as_str().parse::<u32>(),
        inclusions.as_str().parse::<u32>(),
        asks.as_str().parse::<u32>(),
    ) else {
        return Ok(false);
    };
    if names == 0 {
        return Ok(false);
    }
    let made = hier_of(rt.alloc(), shape.as_str(), names, inclusions).map_err(
        |_refused| AllocError,
    )?;
    let Some(hier) = made else {
        return Ok(false);
    };
    println!(rt;
        "roles {} below {}",
        hier.roles().len(),
        ask(&hier, names, asks)
    )?;
    Ok(true)
}

/// The hierarchy, or none where it has too many names.
pub(crate) fn hier_of(
    alloc: Global,
    shape: &str,
    names: u32,
    inclusions: u32,
) -> Result<Option<Hier>, NoMemory>
    requires { 0 < names }
{
    let signature = signature_of(alloc, names)?;
    let normal = Normal {
        roles: role_rows(alloc, shape, names, inclusions)?,
        concepts: concept_rows(alloc, shape, names, inclusions)?,
        negatives: List::new(alloc),
    };
    let fit = fits(alloc, &normal, &signature)?;
    if !fit {
        return Ok(None);
    }
    let hier = Hier::build(alloc, &normal, &signature)?;
    Ok(Some(hier))
}

/// The names of the inclusions: each number is a class, and each even one an object property.
fn signature_of(alloc: Global, names: u32) -> Result<Signature, NoMemory> {
    let mut classes = List::new(alloc);
    let mut roles = List::new(alloc);
    for name in 0..names {
        classes.push(name)?;
        if name % 2 == 0 {
            roles.push(name)?;
        }
    }
    Ok(Signature { classes, roles })
}

/// The role of a number: an even one is an object property, and an odd one the auxiliary role of the property before
/// it.
fn role_of(number: u32, inverse: bool) -> Role {
    let base = if number % 2 == 0 {
        Base::Named(number)
    } else {
        Base::Auxiliary {
            role: number - 1,
            inverse: false,
            class: number,
        }
    };
    Role { base, inverse }
}

/// The basic concept of a number: a class, or "some" of a role.
fn basic_of(number: u32, some: bool) -> Basic {
    if some {
        Basic::SomeOf(role_of(number, false))
    } else {
        Basic::Class(number)
    }
}

/// The two ends of an inclusion: in a deep tree from a number to the one before, in a wide one to the first; later
/// ones are far apart, all to smaller numbers, or in a tangle any way.
fn ends_of(shape: &str, names: u32, i: u32) -> (u32, u32)
    requires { 0 < names }
    ensures within { result.0 < names }
    ensures within_too { result.1 < names }
{
    let one = (u64::from(i) * 7919 % u64::from(names)) as u32;
    let other = (u64::from(i) * 104_729 % u64::from(names)) as u32;
    if shape == "tangle" {
        return (one, other);
    }
    if i >= names {
        return (one.max(other), one.min(other));
    }
    if shape == "deep" {
        return (i, i.saturating_sub(1));
    }
    (i, 0)
}

fn role_rows(
    alloc: Global,
    shape: &str,
    names: u32,
    inclusions: u32,
) -> Result<List<(Role, Role)>, NoMemory>
    requires { 0 < names }
{
    let mut rows = List::new(alloc);
    for i in 0..inclusions {
        let (sub, sup) = ends_of(shape, names, i);
        rows.push((role_of(sub, i % 3 == 0), role_of(sup, i % 3 == 0)))?;
    }
    Ok(rows)
}

fn concept_rows(
    alloc: Global,
    shape: &str,
    names: u32,
    inclusions: u32,
) -> Result<List<(Basic, Basic)>, NoMemory>
    requires { 0 < names }
{
    let mut rows = List::new(alloc);
    for i in 0..inclusions {
        let (sub, sup) = ends_of(shape, names, i);
        rows.push((basic_of(sub, i % 2 == 0), basic_of(sup, i % 4 == 0)))?;
    }
    Ok(rows)
}

/// How often one of two is below the other, of as many pairs of roles and of basic concepts as asks.
fn ask(hier: &Hier, names: u32, asks: u32) -> u32
    requires { 0 < names }
{
    let mut below = 0u32;
    for i in 0..asks {
        let one = (u64::from(i) * 7919 % u64::from(names)) as u32;
        let other = (u64::from(i) * 104_729 % u64::from(names)) as u32;
        if hier.role_below(role_of(one, false), role_of(other, false)) {
            below = below.wrapping_add(1);
        }
        if hier.basic_below(basic_of(one, false), basic_of(other, true)) {
            below = below.wrapping_add(1);
        }
    }
    below
}
