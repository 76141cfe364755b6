// Canonical digits one at a time, lowest first.
#![tactic(auto)]

ghost use Rattle.std.specs.Prelude.{◌≡◌};
ghost use Rattle.signed_digits.specs.Naf.{low_digit, canonical_width};
ghost use Rattle.signed_digits.specs.Bytes.{digit_byte};
ghost use Rattle.taking.specs.Take.{IsStart, IsTake};

use integers::words_of;
use numbers::number_verdict;
use rules::{NUMBER_WORDS, Refusal};
use words::{halved, is_zero};

// A recoder stands for the value of its words, least significant first, plus one if it carries.
#[derive(Clone, Copy)]
pub struct Recoder {
    pub words: [u64; NUMBER_WORDS],
    pub carry: bool,
}

// What the start of taking answers. A pair, since a refused start leaves a recoder too: that of zero.
#[derive(Clone, Copy)]
pub struct Started {
    pub recoder: Recoder,
    pub answer: Result<(), Refusal>,
}

// What a take answers: the byte of a digit, if one is left, and the recoder moved on.
#[derive(Clone, Copy)]
pub struct Taken {
    pub next: Recoder,
    pub answer: Option<u8>,
}

impl Recoder {
    // A recoder for a number; for zero if the number is refused.
    #[tactic(auto, using(numbers::proofs::Tests::admitted_is, numbers::proofs::Tests::admitted_value, crate::proofs::Moves::zero_stands), unfolding(crate::specs::Take::stands_for))]
    pub fn start(number: &[u8]) -> Started
        ensures { IsStart number.now result }
    {
        let answer = number_verdict(number);
        let words = if answer.is_ok() {
            words_of(number)
        } else {
            [0; NUMBER_WORDS]
        };
        let recoder = Recoder {
            words,
            carry: false,
        };
        Started { recoder, answer }
    }

    // The lowest digit, if one is left, and the recoder moved on by one place; if none is left, the same
    // recoder.
    #[tactic(auto, using(integers::proofs::Bits::bool_small, crate::proofs::Moves::none_left, crate::proofs::Moves::some_left, crate::proofs::Moves::digit_answered, crate::proofs::Moves::digit_taken_off))]
    pub fn take(self) -> Taken
        ensures { IsTake self result.next result.answer }
    {
        let Recoder { words, carry } = self;
        if is_zero(&words) & !carry {
            return Taken {
                next: self,
                answer: None,
            };
        }
        let word = words[0];
        let one = u64::from(carry);
        let ones = word % 2 + word / 2 % 2 + one;
        let residue = word % 4 + one;
        Taken {
            next: Recoder {
                words: halved(words),
                carry: 2 <= ones,
            },
            answer: Some(digit_byte(residue)),
        }
    }
}

// The byte of the lowest digit of a number: 0, 1, 0, minus 1 by the remainder modulo 4.
#[tactic(auto, using(crate::proofs::Moves::byte_at))]
pub fn digit_byte(number: u64) -> u8
    ensures { result ≡ digit_byte (low_digit canonical_width number) }
{
    [0, 1, 0, 255][(number % 4) as usize]
}
