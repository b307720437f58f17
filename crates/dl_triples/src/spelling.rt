// The texts of IRIs and literals: plain bytes and escapes.
ghost use Rattle.std.specs.Prelude.{◌≡◌, ℕ, ◌≤◌, ◌<◌, List, [], ◌++◌, true, false, length, IfOk, OnOk, IsTrue, MatchOption, string_bytes};
ghost use Rattle.std.specs.List.{list_all};
ghost use Rattle.std.specs.Char.{is_ascii_hexdigit};
ghost use Rattle.dl_triples.specs.declared.spelling.Quoting.TheVariants.{Iri};
ghost use Rattle.dl_triples.specs.Spelling.{is_plain, is_allowed, letter_value, digit_count, hex_value, Spells};
ghost use Rattle.dl_triples.specs.Runs.{IsSplit};
ghost use Rattle.dl_triples.specs.Parts.{EscapeThen, NumberThen, IsSpelled};

use crate::runs::{Class, split};
use dl_names::is_iri_byte;
use dl_terms::NoMemory;

/// What a text is spelled in.
#[derive(Clone, Copy)]
pub(crate) enum Quoting {
    /// An IRI between `<` and `>`.
    Iri,
    /// A literal between quotes.
    Literal,
}

impl Quoting {
    /// Whether the byte stands for itself.
    pub(crate) fn is_plain(self, byte: u8) -> bool
        ensures { result ≡ is_plain self byte }
    {
        match self {
            Quoting::Iri => is_iri_byte(byte),
            Quoting::Literal => !matches!(byte, b'"' | b'\\' | b'\n' | b'\r'),
        }
    }

    /// Whether `\u` and `\U` may stand for the character.
    fn is_allowed(self, character: char) -> bool
        ensures { result ≡ is_allowed self character }
    {
        match self {
            Quoting::Iri => is_iri_character(character),
            Quoting::Literal => true,
        }
    }

    /// What the escape with this letter stands for.
    fn letter_value(self, letter: u8) -> Option<char>
        ensures { result ≡ letter_value self letter }
    {
        match self {
            Quoting::Iri => None,
            Quoting::Literal => literal_letter(letter),
        }
    }
}

fn is_iri_character(character: char) -> bool
    ensures { result ≡ is_allowed Iri character }
{
    character > ' '
        && !matches!(
            character,
            '<' | '>' | '"' | '{' | '}' | '|' | '^' | '`' | '\\'
        )
}

fn literal_letter(letter: u8) -> Option<char>
    ensures { result ≡ letter_value Quoting.Literal letter }
{
    match letter {
        b't' => Some('\t'),
        b'b' => Some('\u{8}'),
        b'n' => Some('\n'),
        b'r' => Some('\r'),
        b'f' => Some('\u{c}'),
        b'"' => Some('"'),
        b'\'' => Some('\''),
        b'\\' => Some('\\'),
        _ => None,
    }
}

/// How many hexadecimal digits stand behind `\` and this letter.
fn digit_count(letter: u8) -> Option<usize>
    ensures { result ≡ digit_count letter }
{
    match letter {
        b'u' => Some(4),
        b'U' => Some(8),
        _ => None,
    }
}

/// The number that hexadecimal digits write, or `None` where a byte is no such digit.
fn hex_value(digits: &[u8]) -> Option<u32>
    requires { length digits.now ≤ 8 }
    ensures { MatchOption result (list_all is_ascii_hexdigit digits.now ≡ false) (λ n.
        (list_all is_ascii_hexdigit digits.now ≡ true) × (n ≡ hex_value digits.now)) }
{
    let mut value = 0u32;
    for digit in digits {
        value = value * 16 + char::from(*digit).to_digit(16)?;
    }
    Some(value)
}

/// The character of the escape at the front, and what stands behind it.
fn escape_then(bytes: &[u8], quoting: Quoting) -> Option<(char, &[u8])>
    ensures { MatchOption result
        ((c : ℕ) (rest : List ℕ) → EscapeThen quoting bytes.now c rest → ⊥)
        (λ found. EscapeThen quoting bytes.now found.0 found.1.now) }
{
    let (first, rest) = bytes.split_first()?;
    let (letter, rest) = rest.split_first()?;
    if *first != b'\\' {
        return None;
    }
    match quoting.letter_value(*letter) {
        Some(character) => Some((character, rest)),
        None => number_then(*letter, rest, quoting),
    }
}

/// The character that the digits behind `\u` or `\U` stand for, and what stands behind them.
fn number_then(letter: u8, bytes: &[u8], quoting: Quoting) -> Option<(char, &[u8])>
    ensures { MatchOption result
        ((c : ℕ) (rest : List ℕ) → NumberThen quoting letter bytes.now c rest → ⊥)
        (λ found. NumberThen quoting letter bytes.now found.0 found.1.now) }
{
    let count = digit_count(letter)?;
    if bytes.len() < count {
        return None;
    }
    let (digits, rest) = bytes.split_at(count);
    let character = char::from_u32(hex_value(digits)?)?;
    if !quoting.is_allowed(character) {
        return None;
    }
    Some((character, rest))
}

/// What stands behind the longest spelling at the front, and whether that spelling has no escapes.
pub(crate) fn spelled(bytes: &[u8], quoting: Quoting) -> (&[u8], bool)
    ensures { IsSpelled quoting bytes.now result.0.now result.1 }
{
    let mut rest = split(bytes, Class::Plain(quoting)).1;
    let mut is_plain = true;
    while let Some((_, next)) = escape_then(rest, quoting) {
        rest = split(next, Class::Plain(quoting)).1;
        is_plain = false;
    }
    (rest, is_plain)
}

/// Writes the IRI that a text spells into the buffer, over what it held. After `NoMemory` the buffer holds any
/// text.
pub(crate) fn decode(bytes: &[u8], buffer: &mut String) -> Result<(), NoMemory>
    ensures { (value : List ℕ) → Spells Iri bytes.now value →
        OnOk result (string_bytes buffer.new ≡ value) }
{
    buffer.clear();
    let mut rest = push_plain(bytes, buffer)?;
    while let Some((character, next)) = escape_then(rest, Quoting::Iri) {
        buffer.push(character)?;
        rest = push_plain(next, buffer)?;
    }
    Ok(())
}

/// Adds the plain bytes at the front to the buffer, and gives what stands behind them.
fn push_plain<'a>(bytes: &'a [u8], buffer: &mut String) -> Result<&'a [u8], NoMemory>
    ensures { IfOk result (λ rest. (run : List ℕ) ×
        IsSplit (is_plain Iri) bytes.now run rest.now ×
        (string_bytes buffer.new ≡ string_bytes buffer.old ++ run)) }
{
    let (run, rest) = split(bytes, Class::Plain(Quoting::Iri));
    let Ok(run) = str::from_utf8(run) else {
        return Err(NoMemory);
    };
    buffer.push_str(run)?;
    Ok(rest)
}
