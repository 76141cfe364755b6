// Values of a chain: their sizes as words, and the bound.
#![tactic(auto)]

ghost use Rattle.std.specs.Prelude.{◌≡◌, ltb, eqb};
ghost use Rattle.rules.specs.Limits.{value_bound};
ghost use Rattle.integers.specs.Positional.{words_value};

use rules::{VALUE_BYTES, VALUE_WORDS};

// A size, least significant word first, and whether the value is below zero.
#[derive(Drop)]
pub struct Value {
    pub words: [u64; VALUE_WORDS],
    pub negative: bool,
}

// The size 1.
pub fn one() -> [u64; VALUE_WORDS]
    ensures { words_value result ≡ 1 }
{
    let mut words = [0u64; VALUE_WORDS];
    words[0] = 1;
    words
}

// Whether a size is zero.
pub fn is_zero(words: [u64; VALUE_WORDS]) -> bool
    ensures { result ≡ eqb (words_value words) 0 }
{
    words::is_zero(&words)
}

// A size below the bound has a top word below this.
const TOP_WORD_BOUND: u64 = 1 << (8 * VALUE_BYTES - 64 * (VALUE_WORDS - 1));

// Whether a size is below the bound.
pub fn is_small(words: [u64; VALUE_WORDS]) -> bool
    ensures { result ≡ ltb (words_value words) value_bound }
{
    words[VALUE_WORDS - 1] < TOP_WORD_BOUND
}
