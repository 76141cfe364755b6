// A recoder as C keeps it: the words of a `Recoder`, then one that is not 0 if it carries.
#![tactic(auto)]

ghost use Rattle.std.specs.Prelude.{◌≡◌, ◌<◌, eqb, length};
ghost use Rattle.rules.specs.Limits.{number_words};
ghost use Rattle.taking.specs.Take.{stands_for};
ghost use Rattle.c_recoder.specs.Kept.{kept_number, IsKeptTake};

use rules::NUMBER_WORDS;
use taking::{Recoder, digit_byte};
use words::{halve, is_zero};

pub const KEPT_WORDS: usize = NUMBER_WORDS + 1;

// A recoder to be kept. Word by word: by `copy_from_slice` the words are copied twice more.
pub fn kept_of(recoder: Recoder) -> [u64; KEPT_WORDS]
    ensures { kept_number result ≡ stands_for recoder }
{
    let mut kept = [0; KEPT_WORDS];
    for (k, word) in recoder.words.iter().enumerate() {
        kept[k] = *word;
    }
    kept[NUMBER_WORDS] = u64::from(recoder.carry);
    kept
}

// Whether nothing is left. The lowest word and the carry nearly always tell. One branch for both, since one
// on the carry alone would go at random.
#[tactic(auto, using(crate::proofs::Taken::some_left, crate::proofs::Taken::none_left))]
fn is_done(kept: &[u64]) -> bool
    requires { number_words < length kept.now }
    ensures { result ≡ eqb (kept_number kept.now) 0 }
{
    if (kept[0] != 0) | (kept[NUMBER_WORDS] != 0) {
        return false;
    }
    is_zero(&kept[..NUMBER_WORDS])
}

// What a take answers if no digit is left: a number above all bytes, since C takes no Option.
const DONE: u32 = 256;

// Takes the lowest digit that is left: its byte, or DONE if there is none. In place, since so many words
// by value do not fit into registers.
#[tactic(auto, using(integers::proofs::Bits::bool_small, crate::proofs::Taken::taken_done, crate::proofs::Taken::kept_answered, crate::proofs::Taken::kept_left))]
pub fn take(kept: &mut [u64; KEPT_WORDS]) -> u32
    ensures { IsKeptTake kept.old kept.new result }
{
    if is_done(kept) {
        return DONE;
    }
    let word = kept[0];
    let one = u64::from(kept[NUMBER_WORDS] != 0);
    let ones = word % 2 + word / 2 % 2 + one;
    let residue = word % 4 + one;
    kept[NUMBER_WORDS] = ones / 2;
    halve(kept);
    u32::from(digit_byte(residue))
}
