// The form of a line: a triple, nothing, or a blank node where a term has to begin.
ghost use Rattle.std.specs.Prelude.{◌≡◌, ℕ, ◌∷◌, ◌++◌, List, Option, MatchOption, IfSome, IfNone, IsTrue, ◌↔◌};
ghost use Rattle.std.specs.Str.{IsUtf8};
ghost use Rattle.dl_names.specs.NameList.{Text};
ghost use Rattle.dl_triples.specs.Terms.{trimmed, IsNothing, NodeNext, IriThen, ObjectThen};
ghost use Rattle.dl_triples.specs.Parts.{closing, TextThen, FindsText, FindsIri, FindsObject, SubtagsThen, TagThen, SuffixThen, LiteralThen, HasForm};

use crate::runs::{Class, split, trimmed};
use crate::spelling::{Quoting, spelled};

/// An IRI as it stands in a line.
#[derive(Clone, Copy)]
pub(crate) struct Iri<'a> {
    /// What stands between `<` and `>`.
    pub(crate) text: &'a str,
    /// Whether it has no escapes.
    pub(crate) plain: bool,
}

/// A triple as it stands in a line. One without an object has a literal for it.
#[derive(Clone, Copy)]
pub(crate) struct Triple<'a> {
    pub(crate) subject: Iri<'a>,
    pub(crate) predicate: Iri<'a>,
    pub(crate) object: Option<Iri<'a>>,
}

/// The form of a line.
#[derive(Clone, Copy)]
pub(crate) enum Form<'a> {
    Nothing,
    Triple(Triple<'a>),
    Node,
    Other,
}

/// The form of a line.
pub(crate) fn form_of(line: &[u8]) -> Form<'_>
    ensures { HasForm line.now result }
{
    if is_nothing(line) {
        return Form::Nothing;
    }
    if node_next(line) {
        return Form::Node;
    }
    let Some((subject, rest)) = iri_then(trimmed(line)) else {
        return Form::Other;
    };
    let Some((predicate, rest)) = iri_then(trimmed(rest)) else {
        return Form::Other;
    };
    if node_next(rest) {
        return Form::Node;
    }
    let Some((object, rest)) = object_then(trimmed(rest)) else {
        return Form::Other;
    };
    if !is_nothing(rest) {
        return Form::Other;
    }
    Form::Triple(Triple {
        subject,
        predicate,
        object,
    })
}

/// Whether nothing but spaces, tabs and a comment stands there.
fn is_nothing(bytes: &[u8]) -> bool
    ensures { IsTrue result ↔ IsNothing bytes.now }
{
    match trimmed(bytes).split_first() {
        None => true,
        Some((first, text)) => *first == b'#' && is_text(text),
    }
}

/// Whether the bytes are UTF-8.
fn is_text(bytes: &[u8]) -> bool
    ensures { IsTrue result ↔ IsUtf8 bytes.now }
{
    match str::from_utf8(bytes) {
        Ok(_) => true,
        Err(_) => false,
    }
}

/// Whether a blank node begins behind spaces and tabs.
fn node_next(bytes: &[u8]) -> bool
    ensures { IsTrue result ↔ NodeNext bytes.now }
{
    trimmed(bytes).starts_with(b"_:")
}

/// The IRIREF at the front, and what stands behind it.
fn iri_then(bytes: &[u8]) -> Option<(Iri<'_>, &[u8])>
    ensures { MatchOption result
        ((iri : Text) (rest : List ℕ) → IriThen bytes.now iri rest → ⊥)
        (λ found. FindsIri bytes.now found.0 found.1.now) }
{
    let rest = bytes.strip_prefix(b"<")?;
    let (text, plain, rest) = text_then(rest, Quoting::Iri, b'>')?;
    Some((Iri { text, plain }, rest))
}

/// The text at the front up to the byte that closes it, whether it has no escapes, and what stands behind that
/// byte.
fn text_then(bytes: &[u8], quoting: Quoting, close: u8) -> Option<(&str, bool, &[u8])>
    requires { close ≡ closing quoting }
    ensures { MatchOption result
        ((text value rest : List ℕ) → TextThen quoting bytes.now text value rest → ⊥)
        (λ found. FindsText quoting bytes.now found.0.now found.1 found.2.now) }
{
    let (rest, plain) = spelled(bytes, quoting);
    let text = &bytes[..bytes.len() - rest.len()];
    let (first, rest) = rest.split_first()?;
    if *first != close {
        return None;
    }
    match str::from_utf8(text) {
        Ok(text) => Some((text, plain, rest)),
        Err(_) => None,
    }
}

/// The object at the front, an IRI or a literal, and what stands behind the dot behind it.
fn object_then(bytes: &[u8]) -> Option<(Option<Iri<'_>>, &[u8])>
    ensures { MatchOption result
        ((object : Option Text) (rest : List ℕ) → ObjectThen bytes.now object rest → ⊥)
        (λ found. FindsObject bytes.now found.0 found.1.now) }
{
    if let Some(rest) = bytes.strip_prefix(b"\"") {
        return Some((None, literal_then(rest)?));
    }
    let (iri, rest) = iri_then(bytes)?;
    Some((Some(iri), dot_then(rest)?))
}

/// What stands behind the literal whose opening quote stands before these bytes, and behind the dot.
fn literal_then(bytes: &[u8]) -> Option<&[u8]>
    ensures { MatchOption result
        ((rest : List ℕ) → LiteralThen bytes.now rest → ⊥)
        (λ rest. LiteralThen bytes.now rest.now) }
{
    let (_, _, rest) = text_then(bytes, Quoting::Literal, b'"')?;
    suffix_then(rest)
}

/// What stands behind the datatype or the tag of a literal, if it has one, and behind the dot.
fn suffix_then(bytes: &[u8]) -> Option<&[u8]>
    ensures { MatchOption result
        ((rest : List ℕ) → SuffixThen bytes.now rest → ⊥)
        (λ rest. SuffixThen bytes.now rest.now) }
{
    if let Some(rest) = bytes.strip_prefix(b"^^") {
        let (_, rest) = iri_then(rest)?;
        return dot_then(rest);
    }
    if let Some(rest) = bytes.strip_prefix(b"@") {
        return tag_then(rest);
    }
    dot_then(bytes)
}

/// What stands behind the language tag at the front and behind the dot.
fn tag_then(bytes: &[u8]) -> Option<&[u8]>
    ensures { MatchOption result
        ((rest : List ℕ) → TagThen bytes.now rest → ⊥)
        (λ rest. TagThen bytes.now rest.now) }
{
    let (primary, rest) = split(bytes, Class::Letter);
    if primary.is_empty() {
        return None;
    }
    subtags_then(rest)
}

/// What stands behind the further parts of a tag and behind the dot.
fn subtags_then(bytes: &[u8]) -> Option<&[u8]>
    ensures { MatchOption result
        ((rest : List ℕ) → SubtagsThen bytes.now rest → ⊥)
        (λ rest. SubtagsThen bytes.now rest.now) }
{
    let mut rest = bytes;
    while let Some(next) = rest.strip_prefix(b"-") {
        let (part, behind) = split(next, Class::LetterOrDigit);
        if part.is_empty() {
            return None;
        }
        rest = behind;
    }
    dot_then(rest)
}

/// What stands behind the dot that ends a triple, before which spaces and tabs may stand.
fn dot_then(bytes: &[u8]) -> Option<&[u8]>
    ensures { MatchOption result
        ((rest : List ℕ) → trimmed bytes.now ≡ 46 ∷ rest → ⊥)
        (λ rest. trimmed bytes.now ≡ 46 ∷ rest.now) }
{
    trimmed(bytes).strip_prefix(b".")
}
