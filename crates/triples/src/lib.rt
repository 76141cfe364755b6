// Three times a number e, by the words of e and 2 e. The canonical digit of e at place i is the bit of
// 3 e at i + 1, less that of e: with the words of 3 e at hand no digit waits for another, and they
// show how many digits there are, and how they begin.
#![tactic(auto)]

ghost use Rattle.std.specs.Prelude.{◌≡◌, ℕ, ◌+◌, ◌*◌, ◌^◌, ◌<◌, ◌≤◌, length, pos, slice_index};
ghost use Rattle.rules.specs.Limits.{number_words};
ghost use Rattle.integers.specs.Positional.{bytes_value, words_value};
ghost use Rattle.signed_digits.specs.Naf.{canonical};
ghost use Rattle.signed_digits.specs.Modified.{saved};

use integers::bit_length;
use numbers::Number;
use rules::NUMBER_WORDS;
use std::marker::Model;
use words::{bits_down, word_in};

// The words of 3 e: one more than those of e, for the last carry.
pub const TRIPLE_WORDS: usize = NUMBER_WORDS + 1;

// A word of 3 e, and what it carries into the next.
#[derive(Drop)]
pub struct TripleWord {
    pub word: u64,
    pub carry: u64,
}

// A word of 3 e: that of e and its double, added, with what is carried in. A carry is seen because the sum
// has wrapped. The bit that doubling shifts out is carried with it, into the next word of 2 e.
pub fn triple_word(word: u64, carry: u64) -> TripleWord
    requires { carry ≤ 2 }
    ensures { result.word + 2 ^ 64 * result.carry ≡ 3 * word + carry }
{
    let both = word.wrapping_add(word << 1);
    let sum = both.wrapping_add(carry);
    TripleWord {
        word: sum,
        carry: (word >> 63) + u64::from(both < word) + u64::from(sum < both),
    }
}

// How many canonical digits a number has, by its bytes and the words of 3 e, of which there may be any
// number: as many as bits, or one more where 3 e has a bit above those of 2 e.
pub fn count(number: &Number, triple: &[u64]) -> usize
    requires { words_value triple.now ≡ 3 * bytes_value number.now }
    ensures { result ≡ length (canonical (pos (bytes_value number.now))) }
{
    let bytes = number.bytes();
    let bits = bit_length(bytes);
    let top = bits + 1;
    bits + ((word_in(triple, top / 64) >> (top % 64)) % 2) as usize
}

// How many digits fewer the modified form has, by the words of 3 e, of which there may be any number: 1
// where the canonical digits, `count` of them, lead with 1 0 -1. 3 e has a bit more than there are digits,
// and begins with 100 exactly there.
pub fn saved(triple: &[u64], count: usize) -> usize
    ensures { (e : ℕ) → words_value triple.now ≡ 3 * e → count ≡ length (canonical (pos e)) → result ≡ saved e }
{
    usize::from(bits_down(triple, count) >> 61 == 4)
}

// A number e by its words, and by those of 3 e.
#[derive(Drop)]
pub struct Tripled {
    words: [u64; NUMBER_WORDS],
    triple: [u64; TRIPLE_WORDS],
}

impl Model for Tripled {
    ghost use Rattle.std.specs.Prelude.{◌≡◌, ℕ, ◌*◌, ◌^◌, ◌<◌, slice_index};
    ghost use Rattle.integers.specs.Positional.{words_value};

    ghost Value = { ℕ };

    ghost view = { λ t. words_value t.words };

    ghost invariant = { λ t. (words_value t.triple ≡ 3 * words_value t.words) × ((i : ℕ) → slice_index t.words i < 2 ^ 64) × ((i : ℕ) → slice_index t.triple i < 2 ^ 64) };
}

impl Tripled {
    // The number that the words hold.
    pub fn new(words: [u64; NUMBER_WORDS]) -> Tripled
        ensures { result ≡ words_value words }
    {
        let mut triple = [0u64; TRIPLE_WORDS];
        let mut carry = 0;
        for (k, word) in words.iter().enumerate() {
            let next = triple_word(*word, carry);
            triple[k] = next.word;
            carry = next.carry;
        }
        triple[NUMBER_WORDS] = carry;
        Tripled { words, triple }
    }

    // The words of e.
    pub fn words(&self) -> &[u64]
        ensures count { length result.now ≡ number_words }
        ensures value { words_value result.now ≡ self.now }
        ensures small { (i : ℕ) → slice_index result.now i < 2 ^ 64 }
    {
        &self.words
    }

    // The words of 3 e.
    pub fn triple(&self) -> &[u64]
        ensures count { length result.now ≡ number_words + 1 }
        ensures value { words_value result.now ≡ 3 * self.now }
        ensures small { (i : ℕ) → slice_index result.now i < 2 ^ 64 }
    {
        &self.triple
    }

    // How many canonical digits the number has, by its bytes.
    pub fn count(&self, number: &Number) -> usize
        requires { self.now ≡ bytes_value number.now }
        ensures { result ≡ length (canonical (pos self.now)) }
    {
        count(number, self.triple())
    }

    // How many digits fewer the modified form has.
    pub fn saved(&self, count: usize) -> usize
        ensures { count ≡ length (canonical (pos self.now)) → result ≡ saved self.now }
    {
        saved(self.triple(), count)
    }
}
