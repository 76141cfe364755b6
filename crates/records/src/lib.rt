// Records of the values of a chain in a work space.
#![tactic(auto)]

ghost use Rattle.std.specs.Prelude.{◌≡◌, ◌∷◌, ◌++◌, ◌+◌, ◌*◌, ◌^◌, ◌≤◌, ◌<◌, eqb, ltb, ℤ, length, take, drop};
ghost use mir.Val.{bool_byte};
ghost use Rattle.rules.specs.Limits.{value_bytes, value_words, record_bytes};
ghost use Rattle.integers.specs.Positional.{bytes_value, words_value, low_bytes};
ghost use Rattle.chain_values.specs.Value.{integer_of};
ghost use Rattle.records.specs.Recording.{HasRecord, size_bytes, distance_of};

use chain_values::Value;
use integers::whole_word_at;
use rules::VALUE_WORDS;
use words::{add_with_carry, store_word};

// A word of the size whose bytes stand at `at`: eight of them, or the single one of the top word.
pub fn size_word(space: &[u8], at: usize, k: usize) -> u64
    requires k_lt_value_words { k < value_words }
    requires value_bytes_in_bounds { at + value_bytes ≤ length space.now }
    ensures { result ≡ bytes_value (take 8 (drop (8 * k) (size_bytes space.now at))) }
{
    if k < VALUE_WORDS - 1 {
        whole_word_at(space, at + 8 * k)
    } else {
        u64::from(space[at + 8 * k])
    }
}

// The size whose bytes stand at `at`.
fn load_size(space: &[u8], at: usize) -> [u64; VALUE_WORDS]
    requires { at + value_bytes ≤ length space.now }
    ensures { words_value result ≡ bytes_value (size_bytes space.now at) }
{
    let mut words = [0u64; VALUE_WORDS];
    for (k, word) in words.iter_mut().enumerate() {
        *word = size_word(space, at, k);
    }
    words
}

// The value whose record stands at `at`.
pub fn load(space: &[u8], at: usize) -> Value
    requires { at + record_bytes ≤ length space.now }
    ensures { (z : ℤ) → HasRecord space.now at z → integer_of result ≡ z }
{
    Value {
        words: load_size(space, at + 1),
        negative: space[at] == 1,
    }
}

// The sum of the sizes whose bytes stand at `a` and `b`. Each word is added as it is loaded: all at once,
// they would be more than there are registers.
pub fn sum(space: &[u8], a: usize, b: usize) -> [u64; VALUE_WORDS]
    requires value_bytes_in_bounds { a + value_bytes ≤ length space.now }
    requires value_bytes_in_bounds_2 { b + value_bytes ≤ length space.now }
    ensures { words_value result ≡ bytes_value (size_bytes space.now a) + bytes_value (size_bytes space.now b) }
{
    let mut words = [0u64; VALUE_WORDS];
    let mut carry = false;
    for (k, word) in words.iter_mut().enumerate() {
        (*word, carry) = add_with_carry(size_word(space, a, k), size_word(space, b, k), carry);
    }
    words
}

// The size at `a` less the one at `b`, and whether that is below zero: then it is in two's complement.
fn subtracted(space: &[u8], a: usize, b: usize) -> ([u64; VALUE_WORDS], bool)
    requires value_bytes_in_bounds { a + value_bytes ≤ length space.now }
    requires value_bytes_in_bounds_2 { b + value_bytes ≤ length space.now }
    ensures { words_value result.0 + bytes_value (size_bytes space.now b) ≡ bytes_value (size_bytes space.now a) + (2 ^ 64) ^ value_words * bool_byte result.1 }
{
    let mut words = [0u64; VALUE_WORDS];
    let mut borrow = false;
    for (k, word) in words.iter_mut().enumerate() {
        (*word, borrow) = size_word(space, a, k).borrowing_sub(size_word(space, b, k), borrow);
    }
    (words, borrow)
}

// How far apart two sizes are, and whether the first is the smaller.
#[derive(Drop)]
pub struct Distance {
    pub words: [u64; VALUE_WORDS],
    pub below: bool,
}

// The distance of the sizes whose bytes stand at `a` and `b`.
pub fn distance_between(space: &[u8], a: usize, b: usize) -> Distance
    requires value_bytes_in_bounds { a + value_bytes ≤ length space.now }
    requires value_bytes_in_bounds_2 { b + value_bytes ≤ length space.now }
    ensures { (words_value result.words ≡ distance_of (bytes_value (size_bytes space.now a)) (bytes_value (size_bytes space.now b))) × (result.below ≡ ltb (bytes_value (size_bytes space.now a)) (bytes_value (size_bytes space.now b))) }
{
    let (given, below) = subtracted(space, a, b);
    // Negated if it is below zero. Without a branch: which size is the larger cannot be predicted.
    let mask = u64::from(below) * u64::MAX;
    let mut words = [0u64; VALUE_WORDS];
    let mut borrow = false;
    for (k, word) in words.iter_mut().enumerate() {
        (*word, borrow) = (given[k] ^ mask).borrowing_sub(mask, borrow);
    }
    Distance { words, below }
}

// Whether the sizes whose bytes stand at `a` and `b` are the same. Without leaving early: which steps
// of a plan double cannot be predicted.
pub fn same_size(space: &[u8], a: usize, b: usize) -> bool
    requires value_bytes_in_bounds { a + value_bytes ≤ length space.now }
    requires value_bytes_in_bounds_2 { b + value_bytes ≤ length space.now }
    ensures { result ≡ eqb (bytes_value (size_bytes space.now a)) (bytes_value (size_bytes space.now b)) }
{
    let mut differing = 0;
    for k in 0..VALUE_WORDS {
        differing |= size_word(space, a, k) ^ size_word(space, b, k);
    }
    differing == 0
}

// Writes the bytes of a size at `at`.
fn store_size(space: &mut [u8], at: usize, words: [u64; VALUE_WORDS])
    requires { at + value_bytes ≤ length space.old }
    ensures { space.new ≡ take at space.old ++ (low_bytes value_bytes (words_value words) ++ drop (at + value_bytes) space.old) }
{
    const TOP: usize = VALUE_WORDS - 1;
    for k in 0..TOP {
        store_word(space, at + 8 * k, words[k]);
    }
    space[at + 8 * TOP] = (words[TOP] % 256) as u8;
}

// Writes a record at `at`.
pub fn store(space: &mut [u8], at: usize, sign: u8, words: [u64; VALUE_WORDS])
    requires { at + record_bytes ≤ length space.old }
    ensures { space.new ≡ take at space.old ++ ((sign ∷ low_bytes value_bytes (words_value words)) ++ drop (at + record_bytes) space.old) }
{
    space[at] = sign;
    store_size(space, at + 1, words);
}
