// The tokens of a query text.
ghost use Rattle.std.specs.Prelude.{◌≡◌, ◌≤◌, length, not, position};
ghost use Rattle.dl_query.specs.Symbols.{front, turnstile_of, variable_of, iri_of, front_of, run_len, run, behind};
ghost use Rattle.dl_names.specs.Iris.{is_iri_byte};
ghost use Rattle.dl_query.specs.Symbols.{is_variable_byte};
ghost use Rattle.dl_query.specs.Parts.{admits, symbol_of};

use dl_names::is_iri_byte;

/// A token that says no more than what it is.
#[derive(Clone, Copy, PartialEq, Eq)]
pub(crate) enum Mark {
    /// `q`
    QueryWord,
    /// `(`
    Opening,
    /// `)`
    Closing,
    /// `,`
    Comma,
    /// `:-`
    Turnstile,
    /// The end of the text.
    Ending,
}

/// A token of a query text.
#[derive(Clone, Copy)]
pub(crate) enum Token<'a> {
    Mark(Mark),
    /// A variable by its name, without the `?`.
    Variable(&'a [u8]),
    /// An IRI without its `<` and `>`.
    Iri(&'a str),
    /// No token begins there.
    Nothing,
}

/// A class of bytes.
#[derive(Clone, Copy)]
pub(crate) enum Class {
    Blank,
    Variable,
    Iri,
}

impl Class {
    /// Whether the class has the byte.
    fn admits(self, byte: u8) -> bool
        ensures { result ≡ admits self byte }
    {
        match self {
            Class::Blank => byte == b' ' || byte == b'\t' || byte == b'\r' || byte == b'\n',
            Class::Variable => byte.is_ascii_alphanumeric() || byte == b'_',
            Class::Iri => is_iri_byte(byte),
        }
    }
}

/// The bytes of a class at the front, and what stands behind them.
pub(crate) fn split(bytes: &[u8], class: Class) -> (&[u8], &[u8])
    ensures front { result.0.now ≡ run (admits class) bytes.now }
    ensures rest { result.1.now ≡ behind (admits class) bytes.now }
{
    bytes.split_at(run_len(bytes, class))
}

/// How many bytes of a class stand at the front.
fn run_len(bytes: &[u8], class: Class) -> usize
    ensures value { result ≡ run_len (admits class) bytes.now }
    ensures within { result ≤ length bytes.now }
{
    run_end(bytes, class).unwrap_or(bytes.len())
}

/// Where the first byte stands that is none of a class.
fn run_end(bytes: &[u8], class: Class) -> Option<usize>
    ensures { result ≡ position (λ b. not (admits class b)) bytes.now }
{
    bytes.iter().position(|byte| !class.admits(*byte))
}

/// The token at the front of bytes that begin with no white space, and what stands behind it.
pub(crate) fn first_token(bytes: &[u8]) -> (Token<'_>, &[u8])
    ensures { front (symbol_of result.0) result.1.now ≡ front_of bytes.now }
{
    let Some((first, rest)) = bytes.split_first() else {
        return (Token::Mark(Mark::Ending), bytes);
    };
    match *first {
        b'q' => (Token::Mark(Mark::QueryWord), rest),
        b'(' => (Token::Mark(Mark::Opening), rest),
        b')' => (Token::Mark(Mark::Closing), rest),
        b',' => (Token::Mark(Mark::Comma), rest),
        b':' => turnstile(rest),
        b'?' => variable(rest),
        b'<' => iri(rest),
        _ => (Token::Nothing, rest),
    }
}

/// The rest of `:-` behind the colon.
fn turnstile(bytes: &[u8]) -> (Token<'_>, &[u8])
    ensures { front (symbol_of result.0) result.1.now ≡ turnstile_of bytes.now }
{
    let Some((first, rest)) = bytes.split_first() else {
        return (Token::Nothing, bytes);
    };
    if *first == b'-' {
        (Token::Mark(Mark::Turnstile), rest)
    } else {
        (Token::Nothing, rest)
    }
}

/// The name of a variable behind the question mark.
fn variable(bytes: &[u8]) -> (Token<'_>, &[u8])
    ensures { front (symbol_of result.0) result.1.now
        ≡ variable_of (run is_variable_byte bytes.now) (behind is_variable_byte bytes.now) }
{
    let (name, rest) = split(bytes, Class::Variable);
    if !name.is_empty() {
        return (Token::Variable(name), rest);
    }
    match rest.split_first() {
        None => (Token::Nothing, rest),
        Some((_, more)) => (Token::Nothing, more),
    }
}

/// An IRI behind the `<`, with the `>` behind it.
fn iri(bytes: &[u8]) -> (Token<'_>, &[u8])
    ensures { front (symbol_of result.0) result.1.now
        ≡ iri_of (run is_iri_byte bytes.now) (behind is_iri_byte bytes.now) }
{
    let (text, behind) = split(bytes, Class::Iri);
    let Some((first, rest)) = behind.split_first() else {
        return (Token::Nothing, behind);
    };
    if *first != b'>' {
        return (Token::Nothing, rest);
    }
    match str::from_utf8(text) {
        Ok(text) => (Token::Iri(text), rest),
        Err(_) => (Token::Nothing, rest),
    }
}
