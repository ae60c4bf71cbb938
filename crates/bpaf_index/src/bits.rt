//! A set of places, as bits in words of 64.
ghost use Rattle.std.specs.Prelude.{ℕ, ◌≡◌, ◌+◌, ◌*◌, ◌<◌, ◌≤◌, length, true, false};
ghost use Rattle.bpaf_index.specs.Bits.{has_bit, count_clear, clear_within, lesser_of, is_on_as};
ghost use Rattle.bpaf_index.specs.Bits.{is_in_first, AreWithin, ChangesBit, ChangesBits};
ghost use Rattle.bpaf_index.specs.Bits.{IsFirstClear, IsFirstWith, IsLeastIn, is_on, is_bit};

/// Whether the bit of a place is set.
pub fn is_set(words: &[u64], place: usize) -> bool
    requires { place < 64 * length words.now }
    ensures { result ≡ has_bit words.now place }
{
    (words[place / 64] >> (place % 64)) & 1 == 1
}

/// Sets the bit of a place.
pub fn set(words: &mut [u64], place: usize)
    requires { place < 64 * length words.old }
    ensures { ChangesBit words.old words.new place true }
{
    words[place / 64] |= 1 << (place % 64);
}

/// Clears the bit of a place.
pub fn clear(words: &mut [u64], place: usize)
    requires { place < 64 * length words.old }
    ensures { ChangesBit words.old words.new place false }
{
    words[place / 64] &= !(1 << (place % 64));
}

/// The first place from one on, below the end, whose bit is not set; the end, where there is none.
///
/// A word of 64 places is one step.
pub fn first_clear(words: &[u64], from: usize, end: usize) -> usize
    requires ordered { from ≤ end }
    requires inside { end ≤ 64 * length words.now }
    ensures { IsFirstClear words.now from end result }
{
    first_with(words, from, end, false)
}

/// The first place from one on, below the end, whose bit is set; the end, where there is none.
///
/// A word of 64 places is one step.
pub fn first_set(words: &[u64], from: usize, end: usize) -> usize
    requires ordered { from ≤ end }
    requires inside { end ≤ 64 * length words.now }
    ensures { IsFirstWith (has_bit words.now) true from end result }
{
    first_with(words, from, end, true)
}

/// The first place from one on, below the end, whose bit has this value; the end, where there is
/// none. It stands in its callers, each of which looks for one value.
#[inline(always)]
fn first_with(words: &[u64], from: usize, end: usize, bit: bool) -> usize
    requires ordered { from ≤ end }
    requires inside { end ≤ 64 * length words.now }
    ensures { IsFirstWith (has_bit words.now) bit from end result }
{
    let mut place = from;
    while place < end {
        let others = stretch(words[place / 64], place % 64, bit);
        if place % 64 + others < 64 {
            return (place + others).min(end);
        }
        place += others.min(end - place);
    }
    end
}

/// How many bits of a word from one on have not this value in a row.
#[inline(always)]
fn stretch(word: u64, low: usize, bit: bool) -> usize
    requires { low < 64 }
    ensures { IsFirstWith (is_bit word) bit low 64 (low + result) }
{
    if bit {
        return zeros(word, low);
    }
    zeros(!word, low)
}

/// How many bits of a word from one on are clear in a row.
fn zeros(word: u64, low: usize) -> usize
    requires { low < 64 }
    ensures { IsFirstWith (is_bit word) true low 64 (low + result) }
{
    let clear = (word >> low).trailing_zeros() as usize;
    clear.min(64 - low)
}

/// How many places from one on, below the end, have no bit set.
///
/// A word of 64 places is one step.
#[tactic(auto, using(crate::proofs::BitSets::clear_counts))]
pub fn count_clear(words: &[u64], from: usize, end: usize) -> usize
    requires ordered { from ≤ end }
    requires inside { end ≤ 64 * length words.now }
    ensures { result ≡ count_clear words.now from end }
{
    let mut count = 0;
    let mut place = from;
    while place < end {
        let wide = (64 - place % 64).min(end - place);
        count += clear_within(words[place / 64], place % 64, wide);
        place += wide;
    }
    count
}

/// How many of so many bits of a word, from one on, are clear.
#[tactic(auto, using(crate::proofs::BitSets::clear_parts))]
fn clear_within(word: u64, low: usize, wide: usize) -> usize
    requires some { 0 < wide }
    requires inside { low + wide ≤ 64 }
    ensures { result ≡ clear_within word low wide }
{
    if word == 0 {
        return wide;
    }
    if word == u64::MAX {
        return 0;
    }
    let mask = u64::MAX >> (64 - wide);
    (!(word >> low) & mask).count_ones() as usize
}

/// Gives the bit of a place this value.
fn write(words: &mut [u64], place: usize, bit: bool)
    requires { place < 64 * length words.old }
    ensures { ChangesBit words.old words.new place bit }
{
    if bit {
        set(words, place);
    } else {
        clear(words, place);
    }
}

/// Gives the bits of some places this value.
#[tactic(auto, using(crate::proofs::BitSets::changes_more))]
fn write_all(words: &mut [u64], places: &[usize], bit: bool)
    requires { AreWithin words.old places.now }
    ensures { ChangesBits words.old words.new places.now bit }
{
    for place in places {
        write(words, *place, bit);
    }
}

/// The least of some places whose bit has this value.
fn least(words: &[u64], places: &[usize], bit: bool) -> Option<usize>
    requires { AreWithin words.now places.now }
    ensures { IsLeastIn (is_on_as words.now places.now bit) result }
{
    let mut least = None;
    for place in places {
        if is_set(words, *place) != bit {
            continue;
        }
        least = Some(lesser(least, *place));
    }
    least
}

/// The lesser of two places, the first of which may be missing.
fn lesser(least: Option<usize>, place: usize) -> usize
    ensures { result ≡ lesser_of least place }
{
    match least {
        None => place,
        Some(least) => least.min(place),
    }
}

/// Of two lists of places the least that is in the first alone, and the least that is in the second
/// alone. The bits of the first are set, those of the others aren't; they are so again in the end.
pub fn least_apart(
    words: &mut [u64],
    own: &[usize],
    others: &[usize],
) -> (Option<usize>, Option<usize>)
    requires own { AreWithin words.old own.now }
    requires others { AreWithin words.old others.now }
    requires set { (q : ℕ) → is_on own.now q ≡ true → has_bit words.old q ≡ true }
    requires clear { (q : ℕ) → is_on others.now q ≡ true → is_on own.now q ≡ false
        → has_bit words.old q ≡ false }
    ensures here { IsLeastIn (is_in_first own.now others.now) result.0 }
    ensures there { IsLeastIn (is_in_first others.now own.now) result.1 }
    ensures kept { length words.new ≡ length words.old }
    ensures same { (q : ℕ) → has_bit words.new q ≡ has_bit words.old q }
{
    let there = least(words, others, false);
    write_all(words, others, false);
    let here = least(words, own, true);
    write_all(words, own, true);
    (here, there)
}
