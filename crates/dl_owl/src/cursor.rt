// The place in the tokens of an ontology at which its reader stands.
ghost use Rattle.std.specs.Prelude.{◌≡◌, ◌+◌, ◌-◌, ◌≤◌, ◌↔◌, IsUtf8, IsTrue, IfOk, IfErr, MatchOption, false, List, length, slice_range};
ghost use Rattle.dl_lex.specs.Grammar.{IsTokenAt};
ghost use Rattle.dl_names.specs.NameList.{Text};
ghost use Rattle.dl_owl.specs.Prefixes.{Prefixes, prefix_of, local_of};
ghost use Rattle.dl_owl.specs.Expected.{open_then, close_then};
ghost use Rattle.dl_owl.specs.Symbols.{opening, closing};
ghost use Rattle.dl_owl.specs.Reading.{is_too_deep, depth_after};
ghost use Rattle.dl_owl.specs.Walk.{here, Begins, NoneFirst, Advances, Passes};

use crate::fault::OwlFault;
use dl_lex::{Keyword, LexFault, Lexer, Token, TokenKind};
use std::marker::Model;

/// The most parentheses that may be open.
const MAX_DEPTH: u32 = 64;

/// The next token of the bytes, and how many parentheses are open before it.
#[derive(Drop)]
pub(crate) struct Cursor<'a> {
    bytes: &'a [u8],
    lexer: Lexer<'a>,
    token: Token,
    depth: u32,
}

impl<'a> Model for Cursor<'a> {
    ghost use Rattle.std.specs.Prelude.{◌≡◌, ◌≤◌, length, slice_range, IsUtf8};
    ghost use Rattle.dl_lex.specs.Grammar.{IsTokenAt};
    ghost use Rattle.dl_lex.specs.Reading.{Reading};
    ghost use Rattle.dl_owl.specs.Walk.{Spot};

    ghost Value = { Spot };

    ghost view = { λ c. record { bytes = c.bytes.now; token = c.token; depth = c.depth } };

    ghost invariant = { λ c.
        (c.lexer.bytes ≡ c.bytes.now) × (c.lexer.offset ≡ c.token.end) × (c.depth ≤ 64)
        × (c.token.start ≤ c.token.end) × (c.token.end ≤ length c.bytes.now)
        × ∥ IsUtf8 (slice_range c.bytes.now c.token.start c.token.end) ∥₁
        × ∥ IsTokenAt c.bytes.now c.token.kind c.token.start c.token.end ∥₁ };
}

impl<'a> Cursor<'a> {
    /// At the first token of the bytes, with no parenthesis open.
    pub(crate) fn new(bytes: &'a [u8]) -> Result<Cursor<'a>, OwlFault>
        ensures begins { IfOk result (λ at. Begins bytes.now at) }
        ensures none { IfErr result (λ fault. NoneFirst bytes.now fault) }
    {
        let mut lexer = Lexer::new(bytes);
        match lexer.next() {
            Ok(token) => Ok(Cursor {
                bytes,
                lexer,
                token,
                depth: 0,
            }),
            Err(LexFault { at }) => Err(OwlFault::Syntax { at }),
        }
    }

    /// The kind of the next token.
    pub(crate) fn kind(&self) -> TokenKind
        ensures { result ≡ self.now.token.kind }
    {
        self.token.kind
    }

    /// Passes over the next token.
    pub(crate) fn advance(&mut self) -> Result<(), OwlFault>
        ensures { Advances self.old self.new result }
    {
        match self.lexer.next() {
            Ok(token) => {
                self.token = token;
                Ok(())
            }
            Err(LexFault { at }) => Err(OwlFault::Syntax { at }),
        }
    }

    /// The text of the next token.
    pub(crate) fn text(&self) -> &'a str
        ensures is { result.now ≡ slice_range self.now.bytes self.now.token.start self.now.token.end }
        ensures stands { ∥ IsTokenAt self.now.bytes self.now.token.kind self.now.token.start
            self.now.token.end ∥₁ }
    {
        match std::str::from_utf8(&self.bytes[self.token.start..self.token.end]) {
            Ok(text) => text,
            Err(_) => unreachable!(),
        }
    }

    /// The IRI of the next token, which is one in full, without its `<` and `>`.
    pub(crate) fn full_iri(&self) -> &'a str
        requires { self.now.token.kind ≡ TokenKind.Iri }
        ensures { let text = slice_range self.now.bytes self.now.token.start self.now.token.end in
            result.now ≡ slice_range text 1 (length text - 1) }
    {
        between_brackets(self.bytes, self.token.start, self.token.end)
    }

    /// The prefix name and the local part of the next token, which is a short IRI, without the colon between them.
    pub(crate) fn short_iri(&self) -> (&'a str, &'a str)
        requires { self.now.token.kind ≡ TokenKind.Short }
        ensures prefix { result.0.now ≡ prefix_of (slice_range self.now.bytes self.now.token.start self.now.token.end) }
        ensures local { result.1.now ≡ local_of (slice_range self.now.bytes self.now.token.start self.now.token.end) }
    {
        match self.text().split_once(':') {
            Some(parts) => parts,
            None => unreachable!(),
        }
    }

    /// Whether `(` stands next.
    pub(crate) fn is_open(&self) -> bool
        ensures { IsTrue result ↔ (self.now.token.kind ≡ TokenKind.Open) }
    {
        match self.token.kind {
            TokenKind::Open => true,
            _ => false,
        }
    }

    /// Whether `)` stands next.
    pub(crate) fn is_close(&self) -> bool
        ensures { IsTrue result ↔ (self.now.token.kind ≡ TokenKind.Close) }
    {
        match self.token.kind {
            TokenKind::Close => true,
            _ => false,
        }
    }

    /// Whether a blank node stands next.
    pub(crate) fn is_node(&self) -> bool
        ensures { IsTrue result ↔ (self.now.token.kind ≡ TokenKind.Node) }
    {
        match self.token.kind {
            TokenKind::Node => true,
            _ => false,
        }
    }

    /// The keyword that stands next, if one does.
    pub(crate) fn keyword(&self) -> Option<Keyword>
        ensures { MatchOption result ((w : Keyword) → self.now.token.kind ≡ TokenKind.Word w → ⊥)
            (λ w. self.now.token.kind ≡ TokenKind.Word w) }
    {
        match self.token.kind {
            TokenKind::Word(keyword) => Some(keyword),
            _ => None,
        }
    }

    /// The offset of the next token.
    pub(crate) fn start(&self) -> usize
        ensures { result ≡ self.now.token.start }
    {
        self.token.start
    }

    /// Whether as many parentheses are open as may be.
    pub(crate) fn is_deep(&self) -> bool
        ensures { result ≡ is_too_deep opening self.now.depth }
    {
        self.depth >= MAX_DEPTH
    }

    /// Counts a parenthesis that is open.
    pub(crate) fn deepen(&mut self)
        requires { is_too_deep opening self.old.depth ≡ false }
        ensures { self.new ≡ record self.old { depth = depth_after opening self.old.depth } }
    {
        self.depth += 1;
    }

    /// Counts a parenthesis that is closed.
    pub(crate) fn rise(&mut self)
        ensures { self.new ≡ record self.old { depth = depth_after closing self.old.depth } }
    {
        self.depth = self.depth.saturating_sub(1);
    }
}

/// What stands between the `<` and `>` of an IRI that stands from a place to another.
fn between_brackets(bytes: &[u8], start: usize, end: usize) -> &str
    requires spans { start + 1 ≤ end - 1 }
    requires within { end ≤ length bytes.now }
    requires utf8 { ∥ IsUtf8 (slice_range bytes.now (start + 1) (end - 1)) ∥₁ }
    ensures { let text = slice_range bytes.now start end in
        result.now ≡ slice_range text 1 (length text - 1) }
{
    match std::str::from_utf8(&bytes[start + 1..end - 1]) {
        Ok(text) => text,
        Err(_) => unreachable!(),
    }
}

/// Whether this keyword stands next.
pub(crate) fn is_word(at: &Cursor, word: Keyword) -> bool
    ensures { IsTrue result ↔ (at.now.token.kind ≡ TokenKind.Word word) }
{
    match at.kind() {
        TokenKind::Word(stands) => stands == word,
        _ => false,
    }
}

/// `(` and what is expected behind it.
pub(crate) fn open(at: &mut Cursor) -> Result<(), OwlFault>
    ensures { (p : Prefixes) (names : List Text)
        → Passes open_then (here at.old p names) (here at.new p names) result }
{
    let start = at.start();
    if !at.is_open() {
        return Err(OwlFault::Syntax { at: start });
    }
    if at.is_deep() {
        return Err(OwlFault::TooDeep { at: start });
    }
    at.advance()?;
    at.deepen();
    Ok(())
}

/// `)` and what is expected behind it.
pub(crate) fn close(at: &mut Cursor) -> Result<(), OwlFault>
    ensures { (p : Prefixes) (names : List Text)
        → Passes close_then (here at.old p names) (here at.new p names) result }
{
    let start = at.start();
    if !at.is_close() {
        return Err(OwlFault::Syntax { at: start });
    }
    at.advance()?;
    at.rise();
    Ok(())
}
