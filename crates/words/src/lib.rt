// Numbers as words, the least significant first: bits, zero, halving, their bytes, and sums.
#![tactic(auto)]

ghost use Rattle.std.specs.Prelude.{◌≡◌, ◌+◌, ◌*◌, ◌/◌, ◌%◌, ◌^◌, ◌≤◌, ◌∷◌, ◌++◌, length, take, drop, ◌==◌, slice_index};
ghost use mir.Val.{bool_byte};
ghost use Rattle.rules.specs.Limits.{number_words};
ghost use Rattle.integers.specs.Positional.{words_value, low_bytes};

use rules::NUMBER_WORDS;

// The word at k: 0 above the highest.
pub fn word_in(words: &[u64], k: usize) -> u64
    ensures { result ≡ slice_index words.now k }
{
    words.get(k).copied().unwrap_or(0)
}

// The word below k: 0 below the lowest.
fn word_under(words: &[u64], k: usize) -> u64
    ensures { result ≡ slice_index (0 ∷ words.now) k }
{
    if k == 0 { 0 } else { word_in(words, k - 1) }
}

// The 64 bits from place n down, the one at n as the highest. Below place 0 stand zeros.
pub fn bits_down(words: &[u64], n: usize) -> u64
    ensures { result ≡ 2 ^ 64 * words_value words.now / 2 ^ (n + 1) % 2 ^ 64 }
{
    let k = n / 64;
    (word_in(words, k) << (63 - n % 64)) + (word_under(words, k) >> (n % 64)) / 2
}

// Whether the words hold nothing. Without a branch, so that the loop can be unrolled.
pub fn is_zero(words: &[u64]) -> bool
    ensures { result ≡ (words_value words.now == 0) }
{
    let mut none = true;
    for word in words {
        none &= *word == 0;
    }
    none
}

// Half a word, with the lowest bit of the next one on top. The word is turned by a bit, which brings its
// own lowest bit to the top, and the lowest bits of both are added there: its own, there twice, is carried
// out. As `word / 2 + next % 2 * 2^63` it would become a double shift, which takes some processors six
// operations.
fn half_word(word: u64, next: u64) -> u64
    ensures { result ≡ word / 2 + next % 2 * 2 ^ 63 }
{
    let turned = word.rotate_right(1);
    turned.wrapping_add(word.wrapping_add(next) << 63)
}

// Halves the number that the first NUMBER_WORDS words hold, rounded down. What stands above stays.
pub fn halve(words: &mut [u64])
    requires { number_words ≤ length words.old }
    ensures value { words_value (take number_words words.new) ≡ words_value (take number_words words.old) / 2 }
    ensures rest { drop number_words words.new ≡ drop number_words words.old }
{
    for k in 0..NUMBER_WORDS - 1 {
        words[k] = half_word(words[k], words[k + 1]);
    }
    words[NUMBER_WORDS - 1] /= 2;
}

// Half of the number that the words hold, rounded down.
pub fn halved(mut words: [u64; NUMBER_WORDS]) -> [u64; NUMBER_WORDS]
    ensures { words_value result ≡ words_value words / 2 }
{
    halve(&mut words);
    words
}

// Writes the `count` low bytes of a word at `at`: zeros above its eight.
pub fn store_low(bytes: &mut [u8], at: usize, count: usize, word: u64)
    requires { at + count ≤ length bytes.old }
    ensures { bytes.new ≡ take at bytes.old ++ (low_bytes count word ++ drop (at + count) bytes.old) }
{
    let mut rest = word;
    for i in 0..count {
        bytes[at + i] = (rest % 256) as u8;
        rest /= 256;
    }
}

// Writes the eight bytes of a word at `at`: one store.
pub fn store_word(bytes: &mut [u8], at: usize, word: u64)
    requires { at + 8 ≤ length bytes.old }
    ensures { bytes.new ≡ take at bytes.old ++ (low_bytes 8 word ++ drop (at + 8) bytes.old) }
{
    bytes[at..at + 8].copy_from_slice(&word.to_le_bytes());
}

// A word of the sum of two words and a carry, and whether it carries into the next: as `u64::carrying_add`,
// but of that the compiler makes no addition with carry, and `records::sum` took twice as long.
pub fn add_with_carry(a: u64, b: u64, carry: bool) -> (u64, bool)
    ensures { result.0 + bool_byte result.1 * 2 ^ 64 ≡ a + b + bool_byte carry }
{
    let half = a.wrapping_add(b);
    let word = half.wrapping_add(u64::from(carry));
    (word, (half < a) | (word < half))
}
