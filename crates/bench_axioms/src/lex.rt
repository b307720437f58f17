// A text of axioms, read into tokens.
use dl_lex::{Lexer, TokenKind};
use std::alloc::{AllocError, Global};
use std::fmt::Write;
use std::io;

/// What `run` takes.
pub const WORDS: &str = "lex AXIOMS ROUNDS";

/// Reads a text of so many axioms so many times, and prints counts. False where the words say nothing, or a
/// number is out of range.
pub fn run<R: AllocGlobal + Print>(rt: &R, words: &[String]) -> io::Result<bool> {
    let (Some(axioms), Some(rounds)) = (words.get(1), words.get(2)) else {
        return Ok(false);
    };
    let (Ok(axioms), Ok(rounds)) = (
        axioms.as_str().parse::<u32>(),
        rounds.as_str().parse::<u32>(),
    ) else {
        return Ok(false);
    };
    let text = text_of(rt.alloc(), axioms)?;
    let mut tokens = 0u64;
    for _ in 0..rounds {
        tokens = tokens.wrapping_add(count(text.as_bytes()));
    }
    println!(rt; "bytes {} tokens {}", text.len(), tokens)?;
    Ok(true)
}

/// How many tokens the bytes have up to the end or the first fault.
pub fn count(bytes: &[u8]) -> u64 {
    let mut lexer = Lexer::new(bytes);
    let mut tokens = 0u64;
    for _ in 0..u64::MAX {
        match lexer.next() {
            Ok(token) if token.kind != TokenKind::End => tokens = tokens.wrapping_add(1),
            _ => break,
        }
    }
    tokens
}

/// A text of axioms, a third of each kind: an inclusion in a class, an inclusion in the domain of a role, and
/// a fact of a role.
fn text_of(alloc: Global, axioms: u32) -> Result<String, AllocError> {
    let mut text = String::new(alloc);
    for i in 0..axioms {
        let j = i / 3;
        match i % 3 {
            0 => writeln!(text, "SubClassOf(:Class{i} :Class{j})")?,
            1 => writeln!(
                text,
                "SubClassOf(:Class{i} ObjectSomeValuesFrom(:role{j} owl:Thing))"
            )?,
            _ => writeln!(
                text,
                "ObjectPropertyAssertion(:role{j} <http://example.org/a{i}> :b{j})"
            )?,
        }
    }
    Ok(text)
}
