// The canonical digits of a number e, counted word by word and not written. The digit at place i is
// the bit of 3 e at i + 1, less that of e: 1 where 3 e alone has a 1, -1 where e alone has
// one.
#![tactic(auto)]

ghost use Rattle.std.specs.Prelude.{◌≡◌, ℕ, ◌+◌, ◌*◌, ◌/◌, ◌^◌, ◌≤◌};
ghost use Rattle.rules.specs.Limits.{number_bytes};
ghost use Rattle.integers.specs.Bits.{bit_length};
ghost use Rattle.integers.specs.Positional.{bytes_value};
ghost use Rattle.naf_tally.specs.Tally.{only_in, length_to, length_above, Within, Tallied};

use numbers::Number;

// How many places hold 1 in a and 0 in b.
fn only_in(a: u64, b: u64) -> usize
    ensures { (result ≡ only_in a b) × (result ≤ 64) }
{
    (a - (a & b)).count_ones() as usize
}

// The highest word of a number that is not 0, and how many places are beneath it; 0 and 0 if there is
// none, which come to the bit length 0 without a case of their own.
#[derive(Drop)]
struct Top {
    under: usize,
    word: u64,
}

impl Top {
    // With the word above this many places.
    fn with_word(self, places: usize, word: u64) -> Top
        requires { self.under ≤ places }
        ensures { (result.under ≤ places) × (length_to result ≡ length_above (length_to self) places word) }
    {
        if word == 0 {
            return self;
        }
        Top {
            under: places,
            word,
        }
    }

    // The bit length of the number.
    fn length(self) -> usize
        requires { self.under ≤ 8 * number_bytes + 64 }
        ensures { result ≡ length_to self }
    {
        self.under + (64 - self.word.leading_zeros() as usize)
    }
}

// What the words of e below this many places give: how many of these places hold a 1 of 3 e alone, and
// of e alone; the top of 3 e there; and what 3 e carries into the next word.
#[derive(Drop)]
struct Tally {
    places: usize,
    plus: usize,
    minus: usize,
    top: Top,
    carry: u64,
}

impl Tally {
    // With the next word of e.
    fn with_word(self, word: u64) -> Tally
        requires places_bound { self.places ≤ 8 * number_bytes }
        requires within { Within self }
        ensures { (result.places ≡ self.places + 64) × Within result × (result.carry ≡ (3 * word + self.carry) / 2 ^ 64) × ((e rest : ℕ) → Tallied e (rest * 2 ^ 64 + word) self → Tallied e rest result) }
    {
        let (triple, carry) = word.carrying_mul(3, self.carry);
        Tally {
            places: self.places + 64,
            plus: self.plus + only_in(triple, word),
            minus: self.minus + only_in(word, triple),
            top: self.top.with_word(self.places, triple),
            carry,
        }
    }
}

// How many digits of e are 1, and how many -1; and how many bits 3 e has.
#[derive(Drop)]
pub struct Digits {
    pub plus: usize,
    pub minus: usize,
    pub length: usize,
}

// The digits of all of a number, over the words that it has. A word of zeros above them takes the last
// carry.
pub fn tally_of(number: &Number) -> Digits
    ensures { (result.plus ≡ only_in (3 * bytes_value number.now) (bytes_value number.now)) × (result.minus ≡ only_in (bytes_value number.now) (3 * bytes_value number.now)) × (result.length ≡ bit_length (3 * bytes_value number.now)) }
{
    let words = number.words();
    let length = number.bytes().len();
    let mut below = Tally {
        places: 0,
        plus: 0,
        minus: 0,
        top: Top { under: 0, word: 0 },
        carry: 0,
    };
    for word in &words[..length.div_ceil(8)] {
        below = below.with_word(*word);
    }
    let all = below.with_word(0);
    Digits {
        plus: all.plus,
        minus: all.minus,
        length: all.top.length(),
    }
}
