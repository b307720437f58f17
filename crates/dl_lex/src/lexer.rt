// The lexer.
ghost use Rattle.std.specs.Prelude.{◌≡◌, ◌≤◌, length, slice_range, IfOk, IfErr, OnErr};
ghost use Rattle.std.specs.Str.{IsUtf8};
ghost use Rattle.dl_lex.specs.Grammar.{IsNextToken, IsFaultAt};

use crate::scan::{skip, token_at};
use crate::token::{LexFault, Token};
use std::marker::Model;

/// Reads the tokens one after another. Contracts see it as the bytes and the offset up to which
/// they are read.
#[derive(Drop)]
pub struct Lexer<'a> {
    bytes: &'a [u8],
    at: usize,
}

impl<'a> Model for Lexer<'a> {
    ghost use Rattle.std.specs.Prelude.{◌≤◌, length};
    ghost use Rattle.dl_lex.specs.Reading.{Reading};

    ghost Value = { Reading };

    ghost view = { λ a. record { bytes = a.bytes.now; offset = a.at } };

    ghost invariant = { λ a. a.at ≤ length a.bytes.now };
}

impl<'a> Lexer<'a> {
    /// A lexer at the front of the bytes.
    pub fn new(bytes: &'a [u8]) -> Lexer<'a>
        ensures { result ≡ record { bytes = bytes.now; offset = 0 } }
    {
        Lexer { bytes, at: 0 }
    }

    /// The next token after white space and comments. After the last one it is `End`, again and again. The fault comes
    /// exactly where no token begins there, and again at each later call.
    pub fn next(&mut self) -> Result<Token, LexFault>
        ensures token { IfOk result (λ t. IsNextToken self.old.bytes self.old.offset t) }
        ensures fault { IfErr result (λ f. IsFaultAt self.old.bytes self.old.offset f.at) }

        // After a token it stands at that token's end, and after a fault where it stood.
        ensures moves { IfOk result (λ t.
            self.new ≡ record { bytes = self.old.bytes; offset = t.end }) }
        ensures stays { OnErr result (self.new ≡ self.old) }

        // Tokens are in order and do not overlap, stand within the bytes, and no token cuts a character.
        ensures in_bounds { IfOk result (λ t. t.end ≤ length self.old.bytes) }
        ensures in_order { IfOk result (λ t. (self.old.offset ≤ t.start) × (t.start ≤ t.end)) }
        ensures text { IfOk result (λ t. IsUtf8 (slice_range self.old.bytes t.start t.end)) }
    {
        let start = skip(self.bytes, self.at);
        match token_at(self.bytes, start) {
            Some(token) => {
                self.at = token.end;
                Ok(token)
            }
            None => Err(LexFault { at: start }),
        }
    }
}
