// What texts begin with: how far all are alike, and the next bytes as a number.
ghost use Rattle.std.specs.Prelude.{◌≡◌, ℕ, ◌<◌, ◌≤◌, take, drop, slice_index};
ghost use Rattle.dl_names.specs.Arrange.{AreAlike, front};

/// How many bytes all texts begin with alike.
pub(crate) fn alike(texts: &[String]) -> usize
    ensures { AreAlike result texts.now }
{
    let Some(first) = texts.first() else {
        return 0;
    };
    let first = first.as_bytes();
    let mut count = first.len();
    for text in texts.iter() {
        count = agreed(first, text.as_bytes(), count);
    }
    count
}

/// How many bytes, at most so many, two texts begin with alike.
fn agreed(one: &[u8], other: &[u8], most: usize) -> usize
    ensures alike { take result one.now ≡ take result other.now }
    ensures few { result ≤ most }
{
    let most = most.min(one.len()).min(other.len());
    let mut count = 0;
    while count < most && one[count] == other[count] {
        count += 1;
    }
    count
}

/// Eight bytes as a number, the first one the highest, behind as many as are skipped.
pub(crate) fn front(text: &[u8], skip: usize) -> u64
    ensures number { result ≡ front (drop skip text.now) }
    ensures bytes { (i : ℕ) → slice_index text.now i < 256 }
{
    let text = behind(text, skip);
    u64::from_be_bytes([
        byte(text, 0),
        byte(text, 1),
        byte(text, 2),
        byte(text, 3),
        byte(text, 4),
        byte(text, 5),
        byte(text, 6),
        byte(text, 7),
    ])
}

/// What is behind as many bytes as are skipped: nothing where there are fewer.
fn behind(text: &[u8], skip: usize) -> &[u8]
    ensures { result.now ≡ drop skip text.now }
{
    if skip < text.len() {
        &text[skip..]
    } else {
        &[]
    }
}

/// The byte at an index, or 0 behind the end.
fn byte(text: &[u8], i: usize) -> u8
    ensures { result ≡ slice_index text.now i }
{
    match text.get(i) {
        Some(byte) => *byte,
        None => 0,
    }
}
