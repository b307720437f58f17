use crate::keyword::Keyword;

/// What a token is.
#[derive(Clone, Copy, PartialEq, Eq)]
pub enum TokenKind {
    /// `(`
    Open,
    /// `)`
    Close,
    /// `=`
    Equals,
    /// `^^`
    Caret,
    /// An IRI in full, between `<` and `>`.
    Iri,
    /// A string between `"`, in which `"` and `\` stand only as `\"` and `\\`.
    Text,
    /// A language tag behind `@`.
    Lang,
    /// A blank node: `_:` and more.
    Node,
    /// A prefix name with its `:`, and a local part, which may be empty.
    Short,
    /// Decimal digits.
    Number,
    /// A keyword.
    Word(Keyword),
    /// The end of the bytes.
    End,
}

/// A token and its offset: `start` is its first byte, counted from 0, and `end` the offset after its last byte. The
/// whole token stands between them, with the `<` and `>` of an IRI, the quotes of a string and the `@` of a tag.
#[derive(Clone, Copy, PartialEq, Eq)]
pub struct Token {
    pub kind: TokenKind,
    pub start: usize,
    pub end: usize,
}

/// No token begins at byte `at`, counted from 0.
#[derive(Clone, Copy, PartialEq, Eq)]
pub struct LexFault {
    pub at: usize,
}
