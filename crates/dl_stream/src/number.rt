// The numbers of a stream file: words of 1 to 9 decimal digits.
ghost use Rattle.std.specs.Prelude.{◌≡◌, ◌≤◌, true, length};
ghost use Rattle.std.specs.List.{list_all};
ghost use Rattle.std.specs.Char.{is_ascii_digit};
ghost use Rattle.std.specs.Str.Parse.{digits_value};
ghost use Rattle.dl_stream.specs.Forms as forms;

use crate::cut::cut;

/// No number is above this.
const MAX_NUMBER: u64 = 999_999_999;

const MAX_ROWS: u64 = 4_194_304;

/// The number of a word, where it is one from the least to the most.
pub(crate) fn number_within(least: u64, most: u64, word: &[u8]) -> Option<u64>
    ensures { result ≡ forms.number_within least most word.now }
{
    if !is_number(word) {
        return None;
    }
    let number = digits_value(word);
    if least <= number && number <= most {
        Some(number)
    } else {
        None
    }
}

/// The shard and the rows that the rest of a line names, one space apart.
pub(crate) fn shard_and_rows(rest: &[u8]) -> Option<(u32, u64)>
    ensures { result ≡ forms.shard_and_rows rest.now }
{
    let (shard, rows) = cut(rest, b' ');
    let rows = rows?;
    let shard = number_within(0, MAX_NUMBER, shard)?;
    let rows = number_within(0, MAX_ROWS, rows)?;
    Some((shard as u32, rows))
}

/// Whether the word is a number.
fn is_number(word: &[u8]) -> bool
    ensures { result ≡ forms.is_number word.now }
{
    1 <= word.len() && word.len() <= 9 && are_digits(word)
}

/// Whether all bytes are decimal digits.
fn are_digits(bytes: &[u8]) -> bool
    ensures { result ≡ list_all is_ascii_digit bytes.now }
{
    bytes.iter().all(|byte| is_digit(*byte))
}

fn is_digit(byte: u8) -> bool
    ensures { result ≡ is_ascii_digit byte }
{
    byte.is_ascii_digit()
}

/// The number that digits spell.
fn digits_value(word: &[u8]) -> u64
    requires few { length word.now ≤ 9 }
    requires digits { list_all is_ascii_digit word.now ≡ true }
    ensures { result ≡ digits_value 10 word.now }
{
    let mut value = 0u64;
    for byte in word {
        value = value * 10 + u64::from(*byte - b'0');
    }
    value
}
