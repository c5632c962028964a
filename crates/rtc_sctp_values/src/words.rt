//! Bits at places of lists of words: 64 places a word, from its lowest bit on.
ghost use Rattle.std.specs.Prelude.{◌≡◌, ◌≢◌, ℕ, ◌+◌, ◌-◌, ◌*◌, ◌/◌, ◌<◌, ◌≤◌, ◌^◌, length, slice_index};
ghost use Rattle.rtc_sctp_values.specs.Words.{has_bit as HasBit, IsSummary, IsSummaryBut, IsFirstWord, IsFirstBit, BitBehind};

// How many bits a word has.
const BITS: usize = 64;

/// Words with every bit set.
pub fn full_words<const N: usize>() -> [u64; N]
    ensures count { length result ≡ N }
    ensures full { (place : ℕ) → place < N → slice_index result place ≡ 2 ^ 64 - 1 }
{
    [u64::MAX; N]
}

/// Whether the bit at a place is set.
pub fn has_bit(words: &[u64], place: usize) -> bool
    requires { place / 64 < length words.now }
    ensures { result ≡ HasBit words.now place }
{
    (words[place / BITS] >> (place % BITS)) & 1 == 1
}

/// Sets or clears the bit at a place.
pub fn put_bit(words: &mut [u64], place: usize, value: bool)
    requires { place / 64 < length words.old }
    ensures count { length words.new ≡ length words.old }
    ensures here { HasBit words.new place ≡ value }
    ensures others { (other : ℕ) → other ≢ place → HasBit words.new other ≡ HasBit words.old other }
    ensures words { (at : ℕ) → at ≢ place / 64 → slice_index words.new at ≡ slice_index words.old at }
{
    let mask = 1u64 << (place % BITS);
    if value {
        words[place / BITS] |= mask;
    } else {
        words[place / BITS] &= !mask;
    }
}

/// Sets the bit at a place of the upper words if the lower word at that place has a bit, else clears it.
pub fn summarize(upper: &mut [u64], lower: &[u64], at: usize)
    requires upper { at / 64 < length upper.old }
    requires lower { at < length lower.now }
    requires others { IsSummaryBut at upper.old lower.now }
    ensures count { length upper.new ≡ length upper.old }
    ensures summary { IsSummary upper.new lower.now }
    ensures words { (place : ℕ) → place ≢ at / 64 → slice_index upper.new place ≡ slice_index upper.old place }
{
    let used = lower[at] > 0;
    put_bit(upper, at, used);
}

/// The first place with a bit; `at` is the first word with one.
pub fn first_bit(words: &[u64], at: usize) -> usize
    requires few { length words.now ≤ 512 }
    requires word { IsFirstWord words.now at }
    ensures first { IsFirstBit words.now result }
    ensures word { result / 64 ≡ at }
    ensures within { at < length words.now }
{
    at * BITS + words[at].trailing_zeros() as usize
}

/// The first place with a bit from this one on, in the word of this place alone.
pub fn bit_behind(words: &[u64], from: usize) -> Option<usize>
    requires within { from / 64 < length words.now }
    requires few { length words.now ≤ 1024 }
    ensures { BitBehind words.now from result }
{
    let behind = words[from / BITS] >> (from % BITS);
    if behind == 0 {
        return None;
    }
    Some(from + behind.trailing_zeros() as usize)
}
