//! One bit for each point of the widest board, in fixed words.

ghost use Rattle.std.specs.Prelude.{◌≡◌, ◌≢◌, ◌<◌, ◌≤◌, ◌*◌, ℕ, replicate, true};
ghost use Rattle.std.specs.Int.{bit_at};
ghost use Rattle.go_points.specs.declared.TheConstants.{MAX_POINTS};
ghost use Rattle.go_points.specs.Points.{has_bit};
ghost use Rattle.go_points.specs.Private.Words.{IsWords, AreAlike, word_count};
ghost use Rattle.go_points.specs.Private.Narrow.{first_words, narrow_count};

use crate::MAX_POINTS;

/// The number of words.
pub(crate) const WORDS: usize = (MAX_POINTS + 63) / 64;

/// The words: bit i % 64 of word i / 64 stands for point i.
pub(crate) type PointBits = [u64; WORDS];

/// Boards of at most this many rows need only the first words.
pub(crate) const NARROW_SIZE: u8 = 19;

/// The number of those words.
pub(crate) const NARROW_WORDS: usize = (NARROW_SIZE as usize * NARROW_SIZE as usize + 63) / 64;

/// The words of a narrow board.
pub(crate) type NarrowBits = [u64; NARROW_WORDS];

pub(crate) fn no_bits() -> PointBits
    ensures { result ≡ replicate word_count 0 }
{
    [0; WORDS]
}

/// The first words.
pub(crate) fn narrow_bits(bits: &PointBits) -> NarrowBits
    ensures { result ≡ first_words narrow_count bits.now }
{
    let mut narrow = [0; NARROW_WORDS];
    for index in 0..NARROW_WORDS {
        narrow[index] = bits[index];
    }
    narrow
}

/// The first words, followed by words without a bit.
pub(crate) fn wide_bits(bits: &NarrowBits) -> PointBits
    ensures { result ≡ first_words word_count bits.now }
{
    let mut wide = no_bits();
    for index in 0..NARROW_WORDS {
        wide[index] = bits[index];
    }
    wide
}

/// Whether the first words differ from those of the other set, each followed by words without a bit.
pub(crate) fn are_unlike(narrow: &NarrowBits, bits: &PointBits) -> bool
    ensures { result ≡ true → first_words word_count narrow.now ≢ bits.now }
{
    for index in 0..NARROW_WORDS {
        if narrow[index] != bits[index] {
            return true;
        }
    }
    false
}

pub(crate) fn read_bit(bits: &PointBits, bit: usize) -> bool
    requires within { bit < MAX_POINTS }
    ensures { result ≡ has_bit bits.now bit }
{
    bits[bit / 64] >> (bit % 64) & 1 == 1
}

pub(crate) fn write_bit(bits: &mut PointBits, bit: usize, value: bool)
    requires within { bit < MAX_POINTS }
    requires words { IsWords bits.old word_count MAX_POINTS }
    ensures same { has_bit bits.new bit ≡ value }
    ensures others { (i : ℕ) → i ≢ bit → has_bit bits.new i ≡ has_bit bits.old i }
    ensures kept { (area : ℕ) → bit < area → IsWords bits.old word_count area
        → IsWords bits.new word_count area }
{
    if value {
        bits[bit / 64] |= 1 << (bit % 64);
    } else {
        bits[bit / 64] &= !(1 << (bit % 64));
    }
}

/// The first set bit of the word at or after this one, or 64 if none is set.
fn next_set(word: u64, from: usize) -> usize
    requires { from < 64 }
    ensures unset { (i : ℕ) → from ≤ i → i < result → bit_at word i ≡ 0 }
    ensures set { result < 64 → bit_at word result ≡ 1 }
    ensures later { from ≤ result }
    ensures most { result ≤ 64 }
{
    let rest = word >> from;
    if rest == 0 {
        64
    } else {
        from + rest.trailing_zeros() as usize
    }
}

/// The first bit, at or after this one, in which either pair of bit sets differs. If there is none, the result is the number of a
/// bit that no point has.
pub(crate) fn next_unlike(
    bits: &PointBits,
    others: &PointBits,
    more: &PointBits,
    more_others: &PointBits,
    from: usize,
    area: usize,
) -> usize
    requires { area ≤ MAX_POINTS }
    ensures later { from ≤ result }
    ensures alike { (i : ℕ) → from ≤ i → i < result
        → AreAlike bits.now others.now more.now more_others.now i }
    ensures unlike { result < area → AreAlike bits.now others.now more.now more_others.now result
        → ⊥ }
{
    let mut at = from;
    'words: while at < area {
        let index = at / 64;
        let word = (bits[index] ^ others[index]) | (more[index] ^ more_others[index]);
        let bit = next_set(word, at % 64);
        at = index * 64 + bit;
        if bit < 64 {
            return at;
        }
    }
    at
}
