// What is left of a text, read token by token.
ghost use Rattle.std.specs.Prelude.{◌≡◌, ◌≢◌, ◌≤◌, ◌<◌, ◌^◌, length, IfOk, IfErr, OnOk, OnErr, MatchOption};
ghost use Rattle.dl_query.specs.Symbols.{mark};

use crate::QueryFault;
use crate::token::{Class, Mark, Token, first_token, split};

/// What is left of a text of `len` bytes.
#[derive(Drop)]
pub(crate) struct Tokens<'a> {
    pub(crate) len: usize,
    pub(crate) rest: &'a [u8],
    ghost within: { length rest.now ≤ len },
    ghost small: { len < 2 ^ 64 },
}

impl<'a> Tokens<'a> {
    ghost use Rattle.dl_query.specs.Parts.{Passes, symbol_of, next_symbol, next_at};

    /// The whole text.
    pub(crate) fn new(bytes: &'a [u8]) -> Tokens<'a>
        ensures len { result.len ≡ length bytes.now }
        ensures rest { result.rest.now ≡ bytes.now }
    {
        Tokens {
            len: bytes.len(),
            rest: bytes,
        }
    }

    /// The next token, and the offset of its first byte.
    pub(crate) fn next(&mut self) -> (Token<'a>, usize)
        ensures token { symbol_of result.0 ≡ next_symbol self.old }
        ensures at { result.1 ≡ next_at self.old }
        ensures passes { Passes self.old self.new }
    {
        let text = split(self.rest, Class::Blank).1;
        let at = self.len - text.len();
        let (token, rest) = first_token(text);
        self.rest = rest;
        (token, at)
    }

    /// Passes over this token. `Syntax` where another one stands next.
    pub(crate) fn expect(&mut self, wanted: Mark) -> Result<(), QueryFault>
        ensures ok { OnOk result (next_symbol self.old ≡ mark wanted) }
        ensures other { OnErr result (next_symbol self.old ≢ mark wanted) }
        ensures fault { IfErr result (λ fault. fault ≡ QueryFault.Syntax (next_at self.old)) }
        ensures passes { Passes self.old self.new }
    {
        let (token, at) = self.next();
        match token {
            Token::Mark(mark) if mark == wanted => Ok(()),
            _ => Err(QueryFault::Syntax { at }),
        }
    }

    /// Passes over a comma and gives its offset, or over this token, which ends a list, and gives `None`. `Syntax`
    /// where another one stands next.
    pub(crate) fn comma_or(&mut self, end: Mark) -> Result<Option<usize>, QueryFault>
        ensures ok { IfOk result (λ comma. MatchOption comma (next_symbol self.old ≡ mark end)
            (λ at. (next_symbol self.old ≡ mark Mark.Comma) × (at ≡ next_at self.old))) }
        ensures other { OnErr result
            ((next_symbol self.old ≢ mark Mark.Comma) × (next_symbol self.old ≢ mark end)) }
        ensures fault { IfErr result (λ fault. fault ≡ QueryFault.Syntax (next_at self.old)) }
        ensures passes { Passes self.old self.new }
    {
        let (token, at) = self.next();
        match token {
            Token::Mark(Mark::Comma) => Ok(Some(at)),
            Token::Mark(mark) if mark == end => Ok(None),
            _ => Err(QueryFault::Syntax { at }),
        }
    }
}
