// Bit matrices in one slice of words: each row has `width` words, the lowest bit first.
ghost use Rattle.std.specs.Prelude.{◌≡◌, ◌≢◌, ℕ, ◌+◌, ◌*◌, ◌<◌, ◌≤◌, ◌↔◌, ◌⊎◌, length, sum, IsTrue, All, Contains, MatchBool};
ghost use Rattle.dl_reach.specs.Chain.{Chain};
ghost use Rattle.dl_reach.specs.Digraph.{Leads, EndsBelow};
ghost use Rattle.dl_reach.specs.Matrix.{HasBit, HasRow, AreRows, Extends, IsFollowed};

/// Whether the bit of the row at the column is set.
pub fn has_bit(words: &[u64], width: usize, row: usize, column: usize) -> bool
    requires row { HasRow words.now width row }
    requires column { column < 64 * width }
    ensures { IsTrue result ↔ HasBit words.now width row column }
{
    (words[row * width + column / 64] >> (column % 64)) & 1 == 1
}

/// Sets the bit of the row at the column.
pub fn set_bit(words: &mut [u64], width: usize, row: usize, column: usize)
    requires row { HasRow words.old width row }
    requires column { column < 64 * width }
    ensures { (a b : ℕ) → HasBit words.new width a b
        ↔ (HasBit words.old width a b ⊎ ((a ≡ row) × (b ≡ column))) }
{
    words[row * width + column / 64] |= 1 << (column % 64);
}

/// Sets the bits of one row in another, and says whether that changed anything.
pub fn unite(words: &mut [u64], width: usize, into: usize, from: usize) -> bool
    requires apart { into ≢ from }
    requires into { HasRow words.old width into }
    requires from { HasRow words.old width from }
    ensures bits { (a b : ℕ) → HasBit words.new width a b
        ↔ (HasBit words.old width a b ⊎ ((a ≡ into) × HasBit words.old width from b)) }
    ensures changed { MatchBool result (sum words.old < sum words.new) (words.new ≡ words.old) }
{
    let mut changed = false;
    for i in 0..width {
        let old = words[into * width + i];
        let both = old | words[from * width + i];
        if both != old {
            changed = true;
        }
        words[into * width + i] = both;
    }
    changed
}

/// Where the bit of a row at another is set, unites that other row into it, and says whether that changed
/// anything.
pub fn follow(words: &mut [u64], width: usize, row: usize, other: usize) -> bool
    requires row { HasRow words.old width row }
    requires other { HasRow words.old width other }
    requires column { other < 64 * width }
    ensures extends { Extends width words.old words.new }
    ensures changed { MatchBool result
        (sum words.old < sum words.new)
        ((words.new ≡ words.old) × IsFollowed words.old width row other) }
{
    if row == other || !has_bit(words, width, row, other) {
        return false;
    }
    unite(words, width, row, other)
}

/// Follows each pair once, in order, and says whether that changed anything.
pub fn follow_all(words: &mut [u64], width: usize, pairs: &[(u32, u32)]) -> bool
    requires { AreRows words.old width pairs.now }
    ensures extends { Extends width words.old words.new }
    ensures changed { MatchBool result
        (sum words.old < sum words.new)
        ((words.new ≡ words.old) × All (λ p. IsFollowed words.old width p.0 p.1) pairs.now) }
{
    let mut changed = false;
    for pair in pairs {
        if follow(words, width, pair.0 as usize, pair.1 as usize) {
            changed = true;
        }
    }
    changed
}

/// Follows the pairs until that changes nothing.
pub fn close(words: &mut [u64], width: usize, pairs: &[(u32, u32)])
    requires { AreRows words.old width pairs.now }
    ensures extends { Extends width words.old words.new }
    ensures followed { All (λ p. IsFollowed words.new width p.0 p.1) pairs.now }
{
    while follow_all(words, width, pairs) {}
}

/// Sets the bits of the pairs.
pub fn set_bits(words: &mut [u64], width: usize, pairs: &[(u32, u32)])
    requires { AreRows words.old width pairs.now }
    ensures { (a b : ℕ) → HasBit words.new width a b
        ↔ (HasBit words.old width a b ⊎ Contains pairs.now (a, b)) }
{
    for pair in pairs {
        set_bit(words, width, pair.0 as usize, pair.1 as usize);
    }
}

/// Sets the bit of each row at its own number.
pub fn set_diagonal(words: &mut [u64], width: usize, rows: usize)
    requires rows { rows * width ≤ length words.old }
    requires columns { rows ≤ 64 * width }
    ensures { (a b : ℕ) → HasBit words.new width a b
        ↔ (HasBit words.old width a b ⊎ ((a ≡ b) × (a < rows))) }
{
    for row in 0..rows {
        set_bit(words, width, row, row);
    }
}
