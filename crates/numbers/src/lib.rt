// The tests that every call makes of the number that it is handed (docs/RULES.md, "Numbers").
#![tactic(auto)]

ghost use Rattle.std.specs.Prelude.{◌≡◌, ◌<◌, ℕ, Ok, Err, MatchResult, slice_index};
ghost use Rattle.integers.specs.Positional.{bytes_value, words_value};
ghost use Rattle.numbers.specs.Admission.{is_padded, number_verdict, positive_verdict, Admitted, Positive};

use integers::words_of;
use rules::{NUMBER_BYTES, NUMBER_WORDS, Refusal};
use std::marker::Model;

// Whether the highest byte is zero. The empty number has none.
#[tactic(auto, using(crate::proofs::Tests::padded_none, crate::proofs::Tests::padded_highest))]
fn is_padded(number: &[u8]) -> bool
    ensures { result ≡ is_padded number.now }
{
    number.last() == Some(&0)
}

// Refusal 1, then 13.
#[tactic(auto, using(crate::proofs::Tests::verdict_too_long, crate::proofs::Tests::verdict_padded, crate::proofs::Tests::verdict_passed))]
pub fn number_verdict(number: &[u8]) -> Result<(), Refusal>
    ensures { result ≡ number_verdict number.now }
{
    if NUMBER_BYTES < number.len() {
        Err(Refusal::NumberTooLong)
    } else if is_padded(number) {
        Err(Refusal::HighestByteIsZero)
    } else {
        Ok(())
    }
}

// The same, then refusal 2: past the others, only the empty number is zero.
#[tactic(auto, using(crate::proofs::Tests::admitted_is, crate::proofs::Tests::positive_zero, crate::proofs::Tests::positive_passed), unfolding(crate::specs::Admission::positive_verdict))]
pub fn positive_verdict(number: &[u8]) -> Result<(), Refusal>
    ensures { result ≡ positive_verdict number.now }
{
    number_verdict(number)?;
    if number.is_empty() {
        return Err(Refusal::NumberIsZero);
    }
    Ok(())
}

// A number that every call takes: not longer than the limit, its highest byte not zero.
#[derive(Drop)]
pub struct Number<'a> {
    bytes: &'a [u8],
}

impl<'a> Model for Number<'a> {
    ghost use Rattle.std.specs.Prelude.{ℕ, ◌<◌, List, slice_index};
    ghost use Rattle.numbers.specs.Admission.{Admitted};

    ghost Value = { List ℕ };

    ghost view = { λ n. n.bytes.now };

    ghost invariant = { λ n. Admitted n.bytes.now × ((i : ℕ) → slice_index n.bytes.now i < 256) };
}

impl<'a> Number<'a> {
    // The number of these bytes, past refusals 1 and 13.
    #[tactic(auto, using(crate::proofs::Tests::admitted_is))]
    pub fn new(bytes: &'a [u8]) -> Result<Number<'a>, Refusal>
        ensures { MatchResult result (λ n. (number_verdict bytes.now ≡ Ok tt) × (n ≡ bytes.now)) (λ r. number_verdict bytes.now ≡ Err r) }
    {
        number_verdict(bytes)?;
        Ok(Number { bytes })
    }

    pub fn bytes(&self) -> &'a [u8]
        ensures value { result.now ≡ self.now }
        ensures small { (i : ℕ) → slice_index self.now i < 256 }
        ensures admitted { Admitted self.now }
    {
        self.bytes
    }

    // The words of its value.
    #[tactic(auto, using(crate::proofs::Tests::admitted_value))]
    pub fn words(&self) -> [u64; NUMBER_WORDS]
        ensures { words_value result ≡ bytes_value self.now }
    {
        words_of(self.bytes)
    }
}

// One that is also not zero. A type of its own: over the test, the two would take a trait and a type for
// each test beside them.
#[derive(Drop)]
pub struct PositiveNumber<'a> {
    bytes: &'a [u8],
}

impl<'a> Model for PositiveNumber<'a> {
    ghost use Rattle.std.specs.Prelude.{ℕ, ◌<◌, List, slice_index};
    ghost use Rattle.numbers.specs.Admission.{Positive};

    ghost Value = { List ℕ };

    ghost view = { λ n. n.bytes.now };

    ghost invariant = { λ n. Positive n.bytes.now × ((i : ℕ) → slice_index n.bytes.now i < 256) };
}

impl<'a> PositiveNumber<'a> {
    // The number of these bytes, past refusals 1, 13 and 2.
    #[tactic(auto, using(crate::proofs::Tests::positive_is))]
    pub fn new(bytes: &'a [u8]) -> Result<PositiveNumber<'a>, Refusal>
        ensures { MatchResult result (λ n. (positive_verdict bytes.now ≡ Ok tt) × (n ≡ bytes.now)) (λ r. positive_verdict bytes.now ≡ Err r) }
    {
        positive_verdict(bytes)?;
        Ok(PositiveNumber { bytes })
    }

    pub fn bytes(&self) -> &'a [u8]
        ensures value { result.now ≡ self.now }
        ensures small { (i : ℕ) → slice_index self.now i < 256 }
        ensures positive { Positive self.now }
    {
        self.number().bytes()
    }

    pub fn words(&self) -> [u64; NUMBER_WORDS]
        ensures value { words_value result ≡ bytes_value self.now }
        ensures small { (i : ℕ) → slice_index self.now i < 256 }
        ensures positive { Positive self.now }
    {
        self.number().words()
    }

    // The same as a number that may be zero.
    pub fn number(&self) -> Number<'a>
        ensures value { result ≡ self.now }
        ensures small { (i : ℕ) → slice_index self.now i < 256 }
        ensures positive { Positive self.now }
    {
        Number { bytes: self.bytes }
    }
}
