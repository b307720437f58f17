// Runs of bytes of a class at the front.
ghost use Rattle.std.specs.Prelude.{◌≡◌, ◌++◌, true};
ghost use Rattle.std.specs.List.{list_all};
ghost use Rattle.dl_triples.specs.Runs.{admits, IsSplit};
ghost use Rattle.dl_triples.specs.Spelling.{is_plain};
ghost use Rattle.dl_triples.specs.Terms.{trimmed};

use crate::spelling::Quoting;

/// A class of bytes.
#[derive(Clone, Copy)]
pub(crate) enum Class {
    Blank,
    Plain(Quoting),
    Letter,
    LetterOrDigit,
    Line,
}

impl Class {
    /// Whether the class has the byte.
    fn admits(self, byte: u8) -> bool
        ensures { result ≡ admits self byte }
    {
        match self {
            Class::Blank => byte == b' ' || byte == b'\t',
            Class::Plain(quoting) => quoting.is_plain(byte),
            Class::Letter => byte.is_ascii_alphabetic(),
            Class::LetterOrDigit => byte.is_ascii_alphanumeric(),
            Class::Line => byte != b'\r' && byte != b'\n',
        }
    }
}

/// The run of bytes of a class at the front, and what stands behind it.
pub(crate) fn split(bytes: &[u8], class: Class) -> (&[u8], &[u8])
    ensures { IsSplit (admits class) bytes.now result.0.now result.1.now }
{
    for (index, byte) in bytes.iter().enumerate() {
        if !class.admits(*byte) {
            return bytes.split_at(index);
        }
    }
    (bytes, &[])
}

/// What stands behind the spaces and tabs at the front.
pub(crate) fn trimmed(bytes: &[u8]) -> &[u8]
    ensures { result.now ≡ trimmed bytes.now }
{
    split(bytes, Class::Blank).1
}
