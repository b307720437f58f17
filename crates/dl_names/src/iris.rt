// The IRIs of names: their characters, and those that are reserved.
ghost use Rattle.std.specs.Prelude.{◌≡◌};
ghost use Rattle.dl_names.specs.Iris.{is_iri_byte, is_reserved, is_free, may_be_class};

/// Whether a byte is a character of an IRI (an IRIREF of RDF 1.1 N-Triples), or a part of one that isn't ASCII.
pub fn is_iri_byte(byte: u8) -> bool
    ensures { result ≡ is_iri_byte byte }
{
    byte > 32
        && !matches!(
            byte,
            b'<' | b'>' | b'"' | b'{' | b'}' | b'|' | b'^' | b'`' | b'\\'
        )
}

/// Whether an IRI is in one of the namespaces of OWL, RDF, RDFS and XML Schema, whose names are reserved.
pub fn is_reserved(iri: &[u8]) -> bool
    ensures { result ≡ is_reserved iri.now }
{
    iri.starts_with(b"http://www.w3.org/2002/07/owl#")
        || iri.starts_with(b"http://www.w3.org/1999/02/22-rdf-syntax-ns#")
        || iri.starts_with(b"http://www.w3.org/2000/01/rdf-schema#")
        || iri.starts_with(b"http://www.w3.org/2001/XMLSchema#")
}

/// The IRI of the class whose members no model has (OWL 2 Functional-Style Syntax).
pub const OWL_NOTHING: &str = "http://www.w3.org/2002/07/owl#Nothing";

/// Whether an IRI may name an object property or an individual: it isn't reserved.
pub fn is_free(iri: &str) -> bool
    ensures { result ≡ is_free iri.now }
{
    !is_reserved(iri.as_bytes())
}

/// Whether an IRI may name a class: it isn't reserved, or it is that of `owl:Nothing`.
pub fn may_be_class(iri: &str) -> bool
    ensures { result ≡ may_be_class iri.now }
{
    is_free(iri) || OWL_NOTHING == iri
}
