// How texts are written in rows: bytes as `{FF}`, and lines that are repeated with a number.
use std::alloc::{AllocError, Global};

/// Adds a text, in which `{FF}` is the byte 0xFF and `{}` the number.
pub(crate) fn spell(text: &str, number: &str, bytes: &mut Vec<u8>) -> Result<(), AllocError> {
    for piece in text.split('{') {
        match piece.split_once('}') {
            Some((code, rest)) => {
                spell_code(code, number, bytes)?;
                bytes.extend_from_slice(rest.as_bytes())?;
            }
            None => bytes.extend_from_slice(piece.as_bytes())?,
        }
    }
    Ok(())
}

/// Adds the byte of a code, or the number where there is no code.
fn spell_code(code: &str, number: &str, bytes: &mut Vec<u8>) -> Result<(), AllocError> {
    match u8::from_str_radix(code, 16) {
        Ok(byte) => bytes.push(byte)?,
        Err(_) => bytes.extend_from_slice(number.as_bytes())?,
    }
    Ok(())
}

/// The bytes of some lines. `* 3 7 TEXT` is the text once for each number from 3 to 6, without an end of line.
pub(crate) fn bytes_of(alloc: Global, lines: &str) -> Result<Vec<u8>, AllocError> {
    let mut bytes = Vec::new(alloc);
    for line in lines.lines() {
        match line.strip_prefix("* ") {
            Some(repeated) => repeat(alloc, repeated, &mut bytes)?,
            None => {
                spell(line, "", &mut bytes)?;
                bytes.push(b'\n')?;
            }
        }
    }
    Ok(bytes)
}

/// Adds a text for each number from the first to before the second, which stand before it.
fn repeat(alloc: Global, line: &str, bytes: &mut Vec<u8>) -> Result<(), AllocError> {
    let (first, rest) = line.split_once(' ').unwrap_or((line, ""));
    let (end, text) = rest.split_once(' ').unwrap_or((rest, ""));
    for number in first.parse::<u32>().unwrap_or(0)..end.parse::<u32>().unwrap_or(0) {
        let number = number.to_string(alloc)?;
        spell(text, number.as_str(), bytes)?;
    }
    Ok(())
}

/// The words of a text, one blank between two; none of an empty one.
pub(crate) fn words_of(alloc: Global, text: &str) -> Result<Vec<String>, AllocError> {
    let mut words = Vec::new(alloc);
    if text.is_empty() {
        return Ok(words);
    }
    for word in text.split(' ') {
        let mut bytes = Vec::new(alloc);
        spell(word, "", &mut bytes)?;
        words.push(String::from_utf8_lossy(alloc, bytes.as_slice())?)?;
    }
    Ok(words)
}
