// The IRI for which the next token stands.
ghost use Rattle.std.specs.Prelude.{◌≡◌, IfOk, string_bytes};
ghost use Rattle.dl_names.specs.NameList.{Text};
ghost use Rattle.dl_owl.specs.Symbols.{placed};
ghost use Rattle.dl_owl.specs.Expected.{Move};
ghost use Rattle.dl_owl.specs.Steps.{at_iri};
ghost use Rattle.dl_owl.specs.Walk.{found_move};

use crate::cursor::Cursor;
use crate::prefixes::Prefixes;
use dl_lex::TokenKind;
use std::alloc::AllocError;

/// What the next token is.
#[derive(Clone, Copy)]
pub(crate) enum Found {
    /// An IRI, in full or short.
    Iri,
    /// A short IRI whose prefix isn't declared.
    Unknown,
    /// No IRI.
    Other,
}

/// What the next token is; of an IRI the text is written out.
pub(crate) fn find_iri(
    at: &Cursor,
    prefixes: &Prefixes,
    text: &mut String,
) -> Result<Found, AllocError>
    ensures { IfOk result (λ found. (k : Text → Move) (other : Move)
        → at_iri prefixes.now (placed at.now.bytes at.now.token).symbol k other
        ≡ found_move found (string_bytes text.new) k other) }
{
    match at.kind() {
        TokenKind::Iri => {
            text.clear();
            text.push_str(at.full_iri())?;
            Ok(Found::Iri)
        }
        TokenKind::Short => {
            let (prefix, local) = at.short_iri();
            match prefixes.get(prefix) {
                Some(iri) => {
                    text.clear();
                    text.push_str(iri)?;
                    text.push_str(local)?;
                    Ok(Found::Iri)
                }
                None => Ok(Found::Unknown),
            }
        }
        _ => Ok(Found::Other),
    }
}
