// The cut of bytes into lines.
ghost use Rattle.dl_triples.specs.Parts.{IsFirstLine};

use crate::runs::{Class, split};

/// The first line, and what stands behind its end, if the end of the bytes doesn't end it.
pub(crate) fn first_line(bytes: &[u8]) -> (&[u8], Option<&[u8]>)
    ensures { IsFirstLine bytes.now result.0.now result.1 }
{
    let (line, rest) = split(bytes, Class::Line);
    if let Some(rest) = rest.strip_prefix(b"\r\n") {
        return (line, Some(rest));
    }
    match rest.split_first() {
        Some((_, rest)) => (line, Some(rest)),
        None => (line, None),
    }
}
