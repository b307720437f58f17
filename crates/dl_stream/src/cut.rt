// Bytes cut at a byte, and into lines.
ghost use Rattle.std.specs.Prelude.{◌≡◌, ◌==◌, ◌<◌, length, option_copied, IfSome};
ghost use Rattle.std.specs.List.{position};
ghost use Rattle.dl_stream.specs.Forms.{before_byte, behind_byte};
ghost use Rattle.dl_stream.specs.Parts.{IsFirstLine, without_return};

/// What stands before the first byte that is `stop`, and behind it, where there is one.
pub(crate) fn cut(bytes: &[u8], stop: u8) -> (&[u8], Option<&[u8]>)
    ensures before { result.0.now ≡ before_byte stop bytes.now }
    ensures behind { option_copied result.1 ≡ behind_byte stop bytes.now }
{
    match first_index(bytes, stop) {
        Some(index) => (&bytes[..index], Some(&bytes[index + 1..])),
        None => (bytes, None),
    }
}

/// The index of the first byte that is `stop`.
fn first_index(bytes: &[u8], stop: u8) -> Option<usize>
    ensures found { result ≡ position (λ b. b == stop) bytes.now }
    ensures within { IfSome result (λ index. index < length bytes.now) }
{
    bytes.iter().position(|byte| *byte == stop)
}

/// The first line, and what stands behind its end, if the end of the bytes doesn't end it.
pub(crate) fn first_line(bytes: &[u8]) -> (&[u8], Option<&[u8]>)
    ensures { IsFirstLine bytes.now result.0.now result.1 }
{
    let (line, behind) = cut(bytes, b'\n');
    match behind {
        Some(rest) => (without_return(line), Some(rest)),
        None => (line, None),
    }
}

/// The bytes without a carriage return at their end.
fn without_return(bytes: &[u8]) -> &[u8]
    ensures { result.now ≡ without_return bytes.now }
{
    match bytes.strip_suffix(b"\r") {
        Some(rest) => rest,
        None => bytes,
    }
}
