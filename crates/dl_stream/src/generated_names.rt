// The names of the generated input.
ghost use Rattle.std.specs.Prelude.{◌≡◌, ◌+◌, ◌++◌, ◌∷◌, ◌<◌, ◌≤◌, string_bytes, IfOk, OnOk};
ghost use Rattle.dl_stream.specs.Generator.{digits, name_text, name_texts};

use dl_names::{NameSet, Names};
use dl_terms::NoMemory;
use std::alloc::{AllocError, Global};

/// Adds the last so many decimal digits of a number.
fn push_digits(out: &mut String, n: u32, width: u32) -> Result<(), AllocError>
    ensures { OnOk result (string_bytes out.new ≡ string_bytes out.old ++ digits width n) }
{
    if width > 0 {
        push_digits(out, n / 10, width - 1)?;
        out.push(char::from(b'0' + (n % 10) as u8))?;
    }
    Ok(())
}

/// A letter and the digits of a number.
fn lettered(alloc: Global, letter: &str, n: u32, width: u32) -> Result<String, AllocError>
    ensures { IfOk result (λ text. string_bytes text ≡ letter.now ++ digits width n) }
{
    let mut text = String::from_str(alloc, letter)?;
    push_digits(&mut text, n, width)?;
    Ok(text)
}

/// The text of the name with this number.
fn name_text(alloc: Global, size: u32, n: u32) -> Result<String, AllocError>
    requires { size ≤ 100000 }
    ensures { IfOk result (λ text. string_bytes text ≡ name_text size n) }
{
    if n < 32 {
        lettered(alloc, "c", n, 2)
    } else if n < 32 + size {
        lettered(alloc, "n", n - 32, 6)
    } else {
        lettered(alloc, "p", n - (32 + size), 1)
    }
}

/// All names by number.
pub(crate) fn generated_names(alloc: Global, size: u32) -> Result<Names, NoMemory>
    requires { size ≤ 100000 }
    ensures { IfOk result (λ names. names ≡ name_texts size) }
{
    let mut set = NameSet::new(alloc);
    for n in 0..40 + size {
        let text = name_text(alloc, size, n)?;
        let Ok(_) = set.add(text.as_str()) else {
            return Err(NoMemory);
        };
    }
    let (names, _ranks) = set.freeze()?;
    Ok(names)
}
