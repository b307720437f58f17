// Ontologies and axioms that are read, with their values by hand.
use dl_names::NameSet;
use dl_owl::{Document, read_axiom, read_ontology};
use dl_terms::{Base, Basic, Fact, Part, Role};
use dl_tests_base::axioms::{Row, axiom_of};
use std::alloc::{AllocError, Global};

/// The places of the classes, of the role and of the fact of the ontology below.
const CLASSES: &[u32] = &[0, 1];

const ROLES: &[u32] = &[2, 2];

const FACTS: &[Fact] = &[Fact::Is { class: 0, who: 3 }];

/// A text, and how many axioms, facts, classes and roles it gives.
type Counted = (&'static str, [usize; 4]);

/// Each axiom once right, behind `Ontology(`.
const RIGHT: &[Counted] = &[
    ("", [0, 0, 0, 0]),
    ("SubClassOf(<A> owl:Nothing)", [1, 0, 0, 0]),
    ("EquivalentClasses(owl:Nothing <A> <B>)", [1, 0, 0, 0]),
    (
        "DisjointClasses(<A> ObjectSomeValuesFrom(<P> owl:Thing))",
        [1, 0, 0, 0],
    ),
    (
        "SubObjectPropertyOf(<P> ObjectInverseOf(<R>))",
        [1, 0, 0, 0],
    ),
    (
        "SubObjectPropertyOf(ObjectInverseOf(<P>) owl:topObjectProperty)",
        [0, 0, 0, 1],
    ),
    ("EquivalentObjectProperties(<P> <R> <S>)", [1, 0, 0, 0]),
    (
        "DisjointObjectProperties(<P> ObjectInverseOf(<P>))",
        [1, 0, 0, 0],
    ),
    ("InverseObjectProperties(<P> <R>)", [1, 0, 0, 0]),
    ("ObjectPropertyDomain(<P> owl:Thing)", [1, 0, 0, 0]),
    (
        "ObjectPropertyRange(ObjectInverseOf(<P>) <A>)",
        [1, 0, 0, 0],
    ),
    ("SymmetricObjectProperty(<P>)", [1, 0, 0, 0]),
    ("AsymmetricObjectProperty(<P>)", [1, 0, 0, 0]),
    ("IrreflexiveObjectProperty(<P>)", [1, 0, 0, 0]),
    ("ClassAssertion(owl:Nothing <a>)", [0, 1, 0, 0]),
    ("ClassAssertion(owl:Thing <a>)", [0, 0, 0, 0]),
    ("ObjectPropertyAssertion(<P> <a> <a>)", [0, 1, 0, 0]),
    ("DifferentIndividuals(<a> <b> <c>)", [0, 0, 0, 0]),
    ("Declaration(Class(<A>))", [0, 0, 1, 0]),
    ("Declaration(Class(owl:Thing))", [0, 0, 0, 0]),
    ("Declaration(ObjectProperty(<P>))", [0, 0, 0, 1]),
    ("Declaration(NamedIndividual(owl:a))", [0, 0, 0, 0]),
    ("Declaration(AnnotationProperty(owl:a))", [0, 0, 0, 0]),
    ("Declaration(Datatype(xsd:string))", [0, 0, 0, 0]),
    ("Declaration(DataProperty(<d>))", [0, 0, 0, 0]),
    ("AnnotationAssertion(<p> _:a _:b)", [0, 0, 0, 0]),
    (
        "AnnotationAssertion(<p> <a> \"v\"^^xsd:string)",
        [0, 0, 0, 0],
    ),
    ("SubAnnotationPropertyOf(<p> <q>)", [0, 0, 0, 0]),
    ("AnnotationPropertyDomain(<p> <d>)", [0, 0, 0, 0]),
    ("AnnotationPropertyRange(<p> <r>)", [0, 0, 0, 0]),
    // IRIs and annotations before the axioms, and annotations in annotations and axioms.
    (
        "<o> <v> Annotation(<p> \"v\"@en) SubClassOf(<A> <B>)",
        [1, 0, 0, 0],
    ),
    (
        "Annotation(Annotation(<p> _:v) Annotation(<p> <v>) <p> \"v\") SubClassOf(<A> <B>)",
        [1, 0, 0, 0],
    ),
    (
        "SubClassOf(Annotation(<p> \"v\"@en) Annotation(<p> <v>) <A> <B>)",
        [1, 0, 0, 0],
    ),
];

const P: Role = Role {
    base: Base::Named(2),
    inverse: false,
};

const INVERSE: Role = Role {
    base: Base::Named(2),
    inverse: true,
};

/// The same of the first name.
const FIRST_INVERSE: Role = Role {
    base: Base::Named(0),
    inverse: true,
};

/// An ontology as an editor writes it.
const UNIVERSITY: &str = "Prefix(:=<http://e.org/u#>)
Prefix(owl:=<http://www.w3.org/2002/07/owl#>)
Prefix(xml:=<http://www.w3.org/XML/1998/namespace>)
Prefix(xml:=<http://www.w3.org/XML/1998/namespace>)
Prefix(rdfs:=<http://www.w3.org/2000/01/rdf-schema#>)

Ontology(<http://e.org/u>
<http://e.org/u/1.0>
Annotation(rdfs:comment \"A small \\\"university\\\"\"@en)

Declaration(Class(:Professor))
Declaration(Class(:Course))
Declaration(ObjectProperty(:teaches))
Declaration(DataProperty(:email))
Declaration(NamedIndividual(:ann))
############################
#   Object Properties
############################

# Object Property: :teaches (:teaches)
AnnotationAssertion(rdfs:label :teaches \"teaches\"@en)
SubObjectPropertyOf(:teaches owl:topObjectProperty)
ObjectPropertyDomain(:teaches :Professor)
ObjectPropertyRange(:teaches :Course)

SubClassOf(Annotation(rdfs:comment \"each one\") :Professor ObjectSomeValuesFrom(:teaches :Course))
DisjointClasses(:Professor :Course)
ClassAssertion(:Professor :ann)
DifferentIndividuals(:ann :bob)
)";

/// Whether a document holds so many of each.
fn holds(document: &Document, counts: [usize; 4]) -> bool {
    document.axioms.len() == counts[0]
        && document.facts.len() == counts[1]
        && document.classes.len() == counts[2]
        && document.roles.len() == counts[3]
}

/// Whether each text, behind `Ontology(` and before `)`, is read with so many of each.
fn are_counted(alloc: Global, rows: &[Counted]) -> Result<bool, AllocError> {
    for (text, counts) in rows {
        let whole = format!(in alloc; "Ontology({text})")?;
        let mut names = NameSet::new(alloc);
        match read_ontology(alloc, whole.as_bytes(), &mut names) {
            Ok(document) => {
                if !holds(&document, *counts) {
                    return Ok(false);
                }
            }
            Err(_) => return Ok(false),
        }
    }
    Ok(true)
}

/// Texts and the axioms that they are: nested parts are one list of parts, and a domain is no range.
const STATED: &[(&str, Row)] = &[
    (
        "SubClassOf(<A> ObjectIntersectionOf(<B> ObjectIntersectionOf(ObjectSomeValuesFrom(ObjectInverseOf(<P>) <A>) \
         ObjectComplementOf(ObjectSomeValuesFrom(<P> owl:Thing)) ObjectSomeValuesFrom(<P> owl:Thing)) owl:Thing))",
        Row::SubClass(
            Basic::Class(0),
            &[
                Part::Class(1),
                Part::Fill(INVERSE, 0),
                Part::Not(Basic::SomeOf(P)),
                Part::Any(P),
                Part::Thing,
            ],
        ),
    ),
    (
        "ObjectPropertyDomain(ObjectInverseOf(<P>) <A>)",
        Row::Domain(FIRST_INVERSE, &[Part::Class(1)]),
    ),
];

/// Texts and the facts that they are: the fact of an inverse is turned.
const LINKS: &[(&str, Fact)] = &[
    (
        "ObjectPropertyAssertion(ObjectInverseOf(<P>) <a> <b>)",
        Fact::Link {
            role: 0,
            from: 2,
            to: 1,
        },
    ),
    (
        "ObjectPropertyAssertion(<P> <a> <b>)",
        Fact::Link {
            role: 0,
            from: 1,
            to: 2,
        },
    ),
];

/// Whether each text is its axiom.
fn are_axioms(alloc: Global, rows: &[(&str, Row)]) -> bool {
    for (text, row) in rows {
        let Ok(stated) = axiom_of(alloc, row) else {
            return false;
        };
        let mut names = NameSet::new(alloc);
        let Ok(document) = read_axiom(alloc, text.as_bytes(), &mut names) else {
            return false;
        };
        if document.axioms.get(0) != Some(&stated) || !holds(&document, [1, 0, 0, 0]) {
            return false;
        }
    }
    true
}

/// Whether each text is its fact.
fn are_facts(alloc: Global, rows: &[(&str, Fact)]) -> bool {
    for (text, stated) in rows {
        let mut names = NameSet::new(alloc);
        let Ok(document) = read_axiom(alloc, text.as_bytes(), &mut names) else {
            return false;
        };
        if document.facts.get(0) != Some(stated) || !holds(&document, [0, 1, 0, 0]) {
            return false;
        }
    }
    true
}

/// Whether the ontology has its classes, its role twice, and its fact, by the places of their names.
fn university_is_read(alloc: Global) -> bool {
    let mut names = NameSet::new(alloc);
    match read_ontology(alloc, UNIVERSITY.as_bytes(), &mut names) {
        Ok(document) => {
            holds(&document, [4, 1, 2, 2])
                && document.classes.as_slice() == CLASSES
                && document.roles.as_slice() == ROLES
                && document.facts.as_slice() == FACTS
        }
        Err(_) => false,
    }
}

/// Whether no front of the ontology is one, up to its last parenthesis.
fn fronts_are_refused(alloc: Global) -> bool {
    let bytes = UNIVERSITY.as_bytes();
    for end in 0..bytes.len() {
        let mut names = NameSet::new(alloc);
        if read_ontology(alloc, &bytes[..end], &mut names).is_ok() {
            return false;
        }
    }
    true
}

/// Whether a right side of so many nested intersections is read, each with one class more.
fn is_flattened(alloc: Global, count: u32) -> Result<bool, AllocError> {
    let mut text = String::from_str(alloc, "SubClassOf(<A> ")?;
    for _ in 0..count {
        text.push_str("ObjectIntersectionOf(<B> ")?;
    }
    text.push_str("<C>")?;
    for _ in 0..count {
        text.push_str(")")?;
    }
    text.push_str(")")?;
    let mut names = NameSet::new(alloc);
    Ok(read_axiom(alloc, text.as_bytes(), &mut names).is_ok())
}

#[test]
fn axioms_are_read(rt: HostRuntime) {
    assert!(rt; matches!(are_counted(rt.alloc(), RIGHT), Ok(true)));
}

#[test]
fn values_are_read(rt: HostRuntime) {
    assert!(rt; are_axioms(rt.alloc(), STATED));
    assert!(rt; are_facts(rt.alloc(), LINKS));
    assert!(rt; matches!(is_flattened(rt.alloc(), 63), Ok(true)));
    assert!(rt; matches!(is_flattened(rt.alloc(), 64), Ok(false)));
}

#[test]
fn a_university_is_read(rt: HostRuntime) {
    assert!(rt; university_is_read(rt.alloc()));
    assert!(rt; fronts_are_refused(rt.alloc()));
}
