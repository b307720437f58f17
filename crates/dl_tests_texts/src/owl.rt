ghost use Rattle.std.specs.Prelude.{◌≡◌, length};
ghost use Rattle.dl_terms.specs.Occurring.{axiom_names};
ghost use Rattle.dl_text.specs.NameText.{AreBelow};

use dl_lex::Keyword;
use dl_names::{NameSet, Names};
use dl_owl::{
    Construct, axiom_text, faults_come_at_their_tokens, reading_gives_one_result,
    values_are_those_of_the_grammar,
};
use dl_terms::{Axiom, Base, Basic, List, NoMemory, Part, Role};
use std::alloc::Global;

/// Three names in their order, and the class without members, which comes behind them.
const NAMES: &[&str] = &["A", "B", "P", "http://www.w3.org/2002/07/owl#Nothing"];

const P: Role = Role {
    base: Base::Named(2),
    inverse: false,
};

const INVERSE: Role = Role {
    base: Base::Named(2),
    inverse: true,
};

/// Adds the texts to the set.
fn are_added(set: &mut NameSet, texts: &[&str]) -> bool {
    for text in texts {
        if set.add(text).is_err() {
            return false;
        }
    }
    true
}

/// Whether the axiom has this text.
fn has_text(alloc: Global, stated: &Axiom, names: &Names, text: &str) -> bool
    requires { AreBelow (length names.now) (axiom_names stated.now) }
{
    match axiom_text(alloc, stated, names) {
        Ok(found) => found.as_str() == text,
        Err(_) => false,
    }
}

/// An inclusion of roles, of which the first is an inverse.
fn roles_have_their_text(alloc: Global, names: &Names) -> bool
    requires { length names.now ≡ 4 }
{
    let stated = Axiom::SubRole {
        sub: INVERSE,
        sup: P,
    };
    has_text(
        alloc,
        &stated,
        names,
        "SubObjectPropertyOf(ObjectInverseOf(<P>) <P>)",
    )
}

/// An inclusion with every kind of part.
fn parts_have_their_text(alloc: Global, names: &Names) -> Result<bool, NoMemory>
    requires { length names.now ≡ 4 }
{
    let mut sup = List::new(alloc);
    sup.push(Part::Fill(INVERSE, 1))?;
    sup.push(Part::Not(Basic::Class(3)))?;
    let stated = Axiom::SubClass {
        sub: Basic::SomeOf(P),
        sup,
    };
    Ok(has_text(
        alloc,
        &stated,
        names,
        "SubClassOf(ObjectSomeValuesFrom(<P> owl:Thing) ObjectIntersectionOf(ObjectSomeValuesFrom(ObjectInverseOf(<P>) <B>) ObjectComplementOf(owl:Nothing)))",
    ))
}

/// Whether axioms over the names of a set, if they are four, have their texts.
fn have_their_texts(alloc: Global, set: NameSet) -> Result<bool, NoMemory> {
    let (names, _ranks) = set.freeze()?;
    if names.len() != 4 || !roles_have_their_text(alloc, &names) {
        return Ok(false);
    }
    parts_have_their_text(alloc, &names)
}

#[test]
fn axioms_have_their_texts(rt: HostRuntime) {
    let mut set = NameSet::new(rt.alloc());
    assert!(rt; are_added(&mut set, NAMES));
    assert!(rt; matches!(have_their_texts(rt.alloc(), set), Ok(true)));
}

#[test]
fn laws_of_the_grammar() {
    values_are_those_of_the_grammar();
    faults_come_at_their_tokens();
    reading_gives_one_result();
}

#[test]
fn constructs_have_their_words(rt: HostRuntime) {
    assert!(rt; Construct::Keyword(Keyword::HasKey).text() == "HasKey");
    assert!(rt; Construct::Thing.text() == "owl:Thing");
    assert!(rt; Construct::AnonymousIndividual.text() == "anonymous individual");
}
