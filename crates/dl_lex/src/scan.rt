// What stands at an offset of the bytes: white space, a comment, a token.
ghost use Rattle.std.specs.Prelude.{◌≡◌, ◌≢◌, ℕ, ◌+◌, ◌<◌, ◌≤◌, ◌⊎◌, ◌↔◌, IsTrue, length, slice_index, MatchOption};
ghost use Rattle.dl_lex.specs.Grammar.{Skips, is_white_space, is_node, is_number, IsRunText};
ghost use Rattle.dl_lex.specs.Scanning.{IsScan, IsRestOfText, SkipsOne, IsEscapeAt, NoEscapeAt, IsRunByte, NoRunText};

use crate::characters::{Class, run_end};
use crate::keyword::Keyword;
use crate::token::{Token, TokenKind};

/// The end of the white space and comments that begin at an offset.
pub fn skip(bytes: &[u8], from: usize) -> usize
    requires { from ≤ length bytes.now }
    ensures { Skips bytes.now from result }
{
    let mut at = from;
    while let Some(next) = after_blank(bytes, at) {
        at = next;
    }
    at
}

/// The offset after the white space or the comment that stands at an offset, if one does.
fn after_blank(bytes: &[u8], at: usize) -> Option<usize>
    requires { at ≤ length bytes.now }
    ensures { MatchOption result (Skips bytes.now at at) (SkipsOne bytes.now at) }
{
    if at == bytes.len() {
        return None;
    }
    if is_white_space(bytes[at]) {
        return Some(at + 1);
    }
    if bytes[at] == b'#' {
        return Some(run_end(bytes, at + 1, Class::Comment));
    }
    None
}

/// Whether the byte is white space.
fn is_white_space(byte: u8) -> bool
    ensures { result ≡ is_white_space byte }
{
    matches!(byte, b' ' | b'\t' | b'\r' | b'\n')
}

/// The token that stands at an offset, if one does.
pub fn token_at(bytes: &[u8], at: usize) -> Option<Token>
    requires { at ≤ length bytes.now }
    ensures { IsScan bytes.now at result }
{
    if at == bytes.len() {
        return found(TokenKind::End, at, at);
    }
    match bytes[at] {
        b'(' => found(TokenKind::Open, at, at + 1),
        b')' => found(TokenKind::Close, at, at + 1),
        b'=' => found(TokenKind::Equals, at, at + 1),
        b'^' => caret(bytes, at),
        b'<' => iri(bytes, at),
        b'"' => text(bytes, at),
        b'@' => lang(bytes, at),
        _ => run(bytes, at),
    }
}

/// The token of this kind and these bytes.
fn found(kind: TokenKind, start: usize, end: usize) -> Option<Token>
    ensures { result ≡ Some (record { kind = kind; start = start; end = end }) }
{
    Some(Token { kind, start, end })
}

/// Whether the byte stands at an offset.
fn has_byte(bytes: &[u8], at: usize, byte: u8) -> bool
    ensures { IsTrue result ↔ ((at < length bytes.now) × (slice_index bytes.now at ≡ byte)) }
{
    at < bytes.len() && bytes[at] == byte
}

/// The `^^` that begins at a `^`, if one does.
fn caret(bytes: &[u8], at: usize) -> Option<Token>
    requires in_bounds { at < length bytes.now }
    requires caret { slice_index bytes.now at ≡ 94 }
    ensures { IsScan bytes.now at result }
{
    if !has_byte(bytes, at + 1, b'^') {
        return None;
    }
    found(TokenKind::Caret, at, at + 2)
}

/// The full IRI that begins at a `<`, if it ends.
fn iri(bytes: &[u8], at: usize) -> Option<Token>
    requires in_bounds { at < length bytes.now }
    requires opens { slice_index bytes.now at ≡ 60 }
    ensures { IsScan bytes.now at result }
{
    let end = run_end(bytes, at + 1, Class::Iri);
    if !has_byte(bytes, end, b'>') {
        return None;
    }
    found(TokenKind::Iri, at, end + 1)
}

/// The string that begins at a `"`, if it ends.
fn text(bytes: &[u8], at: usize) -> Option<Token>
    requires in_bounds { at < length bytes.now }
    requires opens { slice_index bytes.now at ≡ 34 }
    ensures { IsScan bytes.now at result }
{
    let end = text_end(bytes, at + 1)?;
    found(TokenKind::Text, at, end)
}

/// The end of a string of which the opening `"` stands before an offset, if it ends.
fn text_end(bytes: &[u8], from: usize) -> Option<usize>
    requires { from ≤ length bytes.now }
    ensures { MatchOption result ((j : ℕ) → ¬ IsRestOfText bytes.now from j)
        (IsRestOfText bytes.now from) }
{
    let mut at = run_end(bytes, from, Class::Plain);
    while let Some(next) = after_escape(bytes, at) {
        at = run_end(bytes, next, Class::Plain);
    }
    if !has_byte(bytes, at, b'"') {
        return None;
    }
    Some(at + 1)
}

/// The offset after the `\"` or `\\` that stands at an offset, if one does.
fn after_escape(bytes: &[u8], at: usize) -> Option<usize>
    requires { at ≤ length bytes.now }
    ensures { MatchOption result (NoEscapeAt bytes.now at) (IsEscapeAt bytes.now at) }
{
    if has_byte(bytes, at, b'\\')
        && (has_byte(bytes, at + 1, b'"') || has_byte(bytes, at + 1, b'\\'))
    {
        return Some(at + 2);
    }
    None
}

/// The language tag that begins at an `@`, if a letter, a digit or `-` follows.
fn lang(bytes: &[u8], at: usize) -> Option<Token>
    requires in_bounds { at < length bytes.now }
    requires opens { slice_index bytes.now at ≡ 64 }
    ensures { IsScan bytes.now at result }
{
    let end = run_end(bytes, at + 1, Class::Lang);
    if end == at + 1 {
        return None;
    }
    found(TokenKind::Lang, at, end)
}

/// The token of the run that stands at an offset, if it is one: a blank node, a short IRI, a number or a keyword.
fn run(bytes: &[u8], at: usize) -> Option<Token>
    requires in_bounds { at < length bytes.now }
    requires plain { IsRunByte (slice_index bytes.now at) }
    ensures { IsScan bytes.now at result }
{
    let end = run_end(bytes, at, Class::Run);
    if end == at {
        return None;
    }
    let kind = run_kind(&bytes[at..end])?;
    found(kind, at, end)
}

/// What a run is by its text.
fn run_kind(text: &[u8]) -> Option<TokenKind>
    ensures { MatchOption result (NoRunText text.now) (IsRunText text.now) }
{
    if is_node(text) {
        return Some(TokenKind::Node);
    }
    if text.contains(&b':') {
        return Some(TokenKind::Short);
    }
    if is_number(text) {
        return Some(TokenKind::Number);
    }
    Keyword::of(text).map(TokenKind::Word)
}

/// Whether the text is a blank node: `_:` and more.
fn is_node(text: &[u8]) -> bool
    ensures { result ≡ is_node text.now }
{
    text.len() > 2 && text[0] == b'_' && text[1] == b':'
}

/// Whether all bytes of the text are digits.
fn is_number(text: &[u8]) -> bool
    ensures { result ≡ is_number text.now }
{
    text.iter().all(|byte| byte.is_ascii_digit())
}
