// The characters of bytes in UTF-8, by classes.
ghost use Rattle.std.specs.Prelude.{◌≡◌, ◌+◌, ◌≤◌, ◌<◌, true, length, slice_index, MatchOption};
ghost use Rattle.std.specs.Str.{continuation_len};
ghost use Rattle.dl_lex.specs.Characters.{admits, is_iri_character, is_run_character, IsCharacterAt, NoCharacterAt, IsLongestRun};

/// A class of characters.
#[derive(Clone, Copy)]
pub enum Class {
    Iri,
    Run,
    Comment,
    Plain,
    Lang,
}

impl Class {
    /// Whether the class has the ASCII character.
    fn admits(self, byte: u8) -> bool
        ensures { result ≡ admits self byte }
    {
        match self {
            Class::Iri => is_iri_character(byte),
            Class::Run => is_run_character(byte),
            Class::Comment => byte != b'\r' && byte != b'\n',
            Class::Plain => byte != b'"' && byte != b'\\',
            Class::Lang => byte.is_ascii_alphanumeric() || byte == b'-',
        }
    }

    /// The offset after the character past ASCII that stands at an offset, if one does and the class has it.
    fn wide_after(self, bytes: &[u8], at: usize) -> Option<usize>
        requires in_bounds { at < length bytes.now }
        requires wide { 128 ≤ slice_index bytes.now at }
        ensures { MatchOption result (NoCharacterAt (admits self) bytes.now at)
            (IsCharacterAt (admits self) bytes.now at) }
    {
        match self {
            Class::Lang => None,
            _ => character_end(bytes, at),
        }
    }
}

/// Whether the ASCII character may stand in an IRI. (`dl_names` has a test of bytes; this crate stands on none.)
fn is_iri_character(byte: u8) -> bool
    ensures { result ≡ is_iri_character byte }
{
    byte.is_ascii_alphanumeric()
        || byte > b' '
            && !matches!(
                byte,
                b'<' | b'>' | b'"' | b'{' | b'}' | b'|' | b'^' | b'`' | b'\\'
            )
}

/// Whether the ASCII character may stand in a run: a word, a name with a prefix, a number.
fn is_run_character(byte: u8) -> bool
    ensures { result ≡ is_run_character byte }
{
    // Most bytes are letters and digits, and this is the loop that all of them go through.
    byte.is_ascii_alphanumeric()
        || is_iri_character(byte) && !matches!(byte, b'(' | b')' | b'=' | b'@' | b'#')
}

/// The end of the longest run of characters of a class.
pub fn run_end(bytes: &[u8], from: usize, class: Class) -> usize
    requires { from ≤ length bytes.now }
    ensures { IsLongestRun (admits class) bytes.now from result }
{
    let mut at = from;
    while let Some(next) = after(bytes, at, class) {
        at = next;
    }
    at
}

/// The offset after the character that stands at an offset, if the class has it.
fn after(bytes: &[u8], at: usize, class: Class) -> Option<usize>
    requires { at ≤ length bytes.now }
    ensures { MatchOption result (NoCharacterAt (admits class) bytes.now at)
        (IsCharacterAt (admits class) bytes.now at) }
{
    if at == bytes.len() {
        return None;
    }
    let byte = bytes[at];
    if byte >= 0x80 {
        return class.wide_after(bytes, at);
    }
    if !class.admits(byte) {
        return None;
    }
    Some(at + 1)
}

/// The offset after the character that stands at an offset, if one does.
fn character_end(bytes: &[u8], at: usize) -> Option<usize>
    requires { at < length bytes.now }
    ensures { MatchOption result (NoCharacterAt (λ _. true) bytes.now at)
        (IsCharacterAt (λ _. true) bytes.now at) }
{
    let width = width(bytes[at]);
    if bytes.len() - at < width {
        return None;
    }
    let window = &bytes[at..at + width];
    match str::from_utf8(window) {
        Ok(_) => Some(at + width),
        Err(_) => None,
    }
}

/// How many bytes a character has that begins with the byte.
fn width(byte: u8) -> usize
    ensures { result ≡ continuation_len byte + 1 }
{
    match byte {
        0..=0x7F => 1,
        0x80..=0xDF => 2,
        0xE0..=0xEF => 3,
        _ => 4,
    }
}
