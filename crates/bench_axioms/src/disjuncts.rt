// How many disjuncts a chain, a star and a cycle have where each neighbour by a role has a neighbour by it again.
use dl_hier::{Hier, fits};
use dl_names::NameSet;
use dl_query::read_query;
use dl_rewrite::rewrite;
use dl_terms::{Base, Basic, List, NoMemory, Normal, Role, Signature};
use std::alloc::{AllocError, Global};
use std::io;

/// What `run` takes.
pub const WORDS: &str = "disjuncts";

/// A query of eight existential variables, and what it is called.
type Shape = (&'static str, &'static str);

const SHAPES: &[Shape] = &[
    (
        "chain",
        "q(?x):-<p>(?x,?a),<p>(?a,?b),<p>(?b,?c),<p>(?c,?d),<p>(?d,?e),<p>(?e,?f),<p>(?f,?g),<p>(?g,?h)",
    ),
    (
        "star",
        "q(?x):-<p>(?x,?a),<p>(?x,?b),<p>(?x,?c),<p>(?x,?d),<p>(?x,?e),<p>(?x,?f),<p>(?x,?g),<p>(?x,?h)",
    ),
    (
        "cycle",
        "q():-<p>(?a,?b),<p>(?b,?c),<p>(?c,?d),<p>(?d,?e),<p>(?e,?f),<p>(?f,?g),<p>(?g,?h),<p>(?h,?a)",
    ),
];

/// Prints the counts. False where memory is wanting, or a query isn't read.
pub fn run<R: AllocGlobal + Print>(rt: &R) -> io::Result<bool> {
    let made = endless(rt.alloc()).map_err(|_refused| AllocError)?;
    let Some(hier) = made else {
        return Ok(false);
    };
    for (name, text) in SHAPES {
        match count_of(rt.alloc(), &hier, text.as_bytes()) {
            Some(count) => println!(rt; "{} disjuncts {}", name, count)?,
            None => return Ok(false),
        }
    }
    Ok(true)
}

/// The hierarchy of one role whose neighbours all have a neighbour by it.
fn endless(alloc: Global) -> Result<Option<Hier>, NoMemory> {
    let mut roles = List::new(alloc);
    roles.push(0)?;
    let mut concepts = List::new(alloc);
    concepts.push((some_of(true), some_of(false)))?;
    let normal = Normal {
        roles: List::new(alloc),
        concepts,
        negatives: List::new(alloc),
    };
    let signature = Signature {
        classes: List::new(alloc),
        roles,
    };
    let fit = fits(alloc, &normal, &signature)?;
    if !fit {
        return Ok(None);
    }
    let hier = Hier::build(alloc, &normal, &signature)?;
    Ok(Some(hier))
}

/// What has a neighbour by the role, or by its inverse.
fn some_of(inverse: bool) -> Basic {
    Basic::SomeOf(Role {
        base: Base::Named(0),
        inverse,
    })
}

fn count_of(alloc: Global, hier: &Hier, text: &[u8]) -> Option<usize> {
    let mut names = NameSet::new(alloc);
    match read_query(alloc, text, &mut names) {
        Ok(query) => match rewrite(alloc, hier, &query) {
            Ok(disjuncts) => Some(disjuncts.len()),
            Err(_) => None,
        },
        Err(_) => None,
    }
}
