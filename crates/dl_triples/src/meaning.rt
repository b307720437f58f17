// What a triple says.
ghost use Rattle.std.specs.Prelude.{◌≡◌};
ghost use Rattle.std.specs.Str.{bytes_eq};
ghost use Rattle.dl_names.specs.Iris.{owl_nothing, rdf_type};
ghost use Rattle.dl_triples.specs.Meaning.{is_among, annotation_properties, universal_classes, kind_of, meaning_of_kinds};

use dl_names::{OWL_NOTHING, is_free};

/// The kinds of IRIs.
#[derive(Clone, Copy)]
pub(crate) enum Kind {
    /// An annotation property that OWL 2 has built in.
    Annotation,
    /// `rdf:type`.
    Type,
    /// A class that every individual is in.
    Universal,
    /// `owl:Nothing`.
    Nothing,
    /// Another reserved name.
    Reserved,
    /// A name that isn't reserved.
    Name,
}

/// What a triple says.
#[derive(Clone, Copy)]
pub(crate) enum Meaning {
    /// It is skipped and counted.
    Skipped,
    /// It has no effect, and isn't counted.
    NoEffect,
    /// It uses a reserved name.
    Reserved,
    /// An individual is in a class.
    Class,
    /// A role joins two individuals.
    Link,
}

/// The kind of an IRI.
pub(crate) fn kind_of(iri: &str) -> Kind
    ensures { result ≡ kind_of iri.now }
{
    if is_free(iri) {
        return Kind::Name;
    }
    if is_annotation(iri) {
        return Kind::Annotation;
    }
    if is_type(iri) {
        return Kind::Type;
    }
    if is_universal(iri) {
        return Kind::Universal;
    }
    if is_nothing(iri) {
        return Kind::Nothing;
    }
    Kind::Reserved
}

fn is_annotation(iri: &str) -> bool
    ensures { result ≡ is_among iri.now annotation_properties }
{
    iri == "http://www.w3.org/2000/01/rdf-schema#label"
        || iri == "http://www.w3.org/2000/01/rdf-schema#comment"
        || iri == "http://www.w3.org/2000/01/rdf-schema#seeAlso"
        || iri == "http://www.w3.org/2000/01/rdf-schema#isDefinedBy"
        || iri == "http://www.w3.org/2002/07/owl#versionInfo"
        || iri == "http://www.w3.org/2002/07/owl#deprecated"
        || iri == "http://www.w3.org/2002/07/owl#priorVersion"
        || iri == "http://www.w3.org/2002/07/owl#backwardCompatibleWith"
        || iri == "http://www.w3.org/2002/07/owl#incompatibleWith"
}

fn is_type(iri: &str) -> bool
    ensures { result ≡ bytes_eq iri.now rdf_type }
{
    iri == "http://www.w3.org/1999/02/22-rdf-syntax-ns#type"
}

fn is_nothing(iri: &str) -> bool
    ensures { result ≡ bytes_eq iri.now owl_nothing }
{
    iri == OWL_NOTHING
}

fn is_universal(iri: &str) -> bool
    ensures { result ≡ is_among iri.now universal_classes }
{
    iri == "http://www.w3.org/2002/07/owl#NamedIndividual"
        || iri == "http://www.w3.org/2002/07/owl#Thing"
}

/// What a triple says whose subject, predicate and object are IRIs of these kinds.
pub(crate) fn meaning_of_kinds(subject: Kind, predicate: Kind, object: Kind) -> Meaning
    ensures { result ≡ meaning_of_kinds subject predicate object }
{
    match (subject, predicate, object) {
        (_, Kind::Annotation, _) => Meaning::Skipped,
        (_, Kind::Type, Kind::Universal) => Meaning::NoEffect,
        (Kind::Name, Kind::Type, Kind::Nothing | Kind::Name) => Meaning::Class,
        (Kind::Name, Kind::Name, Kind::Name) => Meaning::Link,
        _ => Meaning::Reserved,
    }
}
