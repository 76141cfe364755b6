// The tests that every call makes of the digit string that it is handed (docs/RULES.md, "Digit
// strings"), over the width of its digits.
#![tactic(auto)]

ghost use Rattle.std.specs.Prelude.{◌≡◌, true, ◌+◌, ◌≤◌, ◌<◌, ℕ, length, MatchOption, IfSome, Ok, Err, MatchResult, slice_index};
ghost use Rattle.signed_digits.specs.Naf.{canonical_width};
ghost use Rattle.digit_strings.specs.Admission.{digit_up_to, first_failing, string_verdict, DigitString};
ghost use Rattle.digit_strings.specs.Internal.{PassFor, failing_place};

use rules::{Refusal, STRING_DIGITS, Width};
use std::marker::Model;

// Whether a byte is 0, or an odd digit of at most the size of the largest. Branch-free.
// Up to the size 1 only 0 is even, so at width 2 the second test falls away.
fn is_digit(byte: u8, largest: u8) -> bool
    requires { largest ≤ 127 }
    ensures { result ≡ digit_up_to largest byte }
{
    ((byte <= largest) | (255 - byte < largest)) & ((byte == 0) | (byte % 2 == 1) | (largest < 2))
}

// Whether all bytes of a block are digits. The compiler tests eight at once.
#[tactic(auto, using(crate::proofs::Scan::none_yet, crate::proofs::Scan::byte_more, crate::proofs::Scan::whole_block))]
fn are_digits(block: &[u8], largest: u8) -> bool
    requires { largest ≤ 127 }
    ensures { result ≡ true → first_failing (digit_up_to largest) block.now ≡ length block.now }
{
    let mut all = true;
    for byte in block {
        all &= is_digit(*byte, largest);
    }
    all
}

// A place below which all bytes are digits, eight at a time.
#[tactic(auto, using(crate::proofs::Scan::none_yet, crate::proofs::Scan::block_joined))]
fn whole_digits(digits: &[u8], largest: u8) -> usize
    requires { largest ≤ 127 }
    ensures { PassFor (digit_up_to largest) digits.now 0 result × (result ≤ length digits.now) }
{
    // The first block with another byte ends it.
    let mut i = 0;
    while i + 8 <= digits.len() && are_digits(&digits[i..i + 8], largest) {
        i += 8;
    }
    i
}

// The lowest place whose byte is no digit, one after the other.
#[tactic(auto, unfolding(crate::specs::Internal::failing_place))]
fn bad_in(digits: &[u8], largest: u8) -> Option<usize>
    requires { largest ≤ 127 }
    ensures place { result ≡ failing_place (digit_up_to largest) digits.now }
    ensures bound { IfSome result (λ place. place < length digits.now) }
{
    digits.iter().position(|byte| !is_digit(*byte, largest))
}

// The same, past those that are found to be digits eight at a time.
fn first_bad(digits: &[u8], largest: u8) -> Option<usize>
    requires { largest ≤ 127 }
    ensures { MatchOption result (length digits.now ≤ first_failing (digit_up_to largest) digits.now) (λ place. (place ≡ first_failing (digit_up_to largest) digits.now) × (place < length digits.now)) }
{
    let whole = whole_digits(digits, largest);
    let bad = bad_in(&digits[whole..], largest)?;
    Some(whole + bad)
}

// Refusal 5, then 4, for digits of this width.
#[tactic(auto, using(crate::proofs::Tests::verdict_too_long, crate::proofs::Tests::verdict_bad_digit, crate::proofs::Tests::verdict_passed))]
pub fn string_verdict(digits: &[u8], width: Width) -> Result<(), Refusal>
    ensures { result ≡ string_verdict width digits.now }
{
    if STRING_DIGITS < digits.len() {
        return Err(Refusal::StringTooLong);
    }
    match first_bad(digits, width.largest_digit()) {
        Some(place) => Err(Refusal::NotADigit(place)),
        None => Ok(()),
    }
}

// A string of the digits 0, 1 and -1 that is let in: not longer than the limit. For one width: with the
// width in the value, each clause would have to take the two apart.
#[derive(Drop)]
pub struct PlainDigits<'a> {
    bytes: &'a [u8],
}

impl<'a> Model for PlainDigits<'a> {
    ghost use Rattle.std.specs.Prelude.{ℕ, ◌<◌, List, slice_index};
    ghost use Rattle.signed_digits.specs.Naf.{canonical_width};
    ghost use Rattle.digit_strings.specs.Admission.{DigitString};

    ghost Value = { List ℕ };

    ghost view = { λ s. s.bytes.now };

    ghost invariant = { λ s. DigitString canonical_width s.bytes.now × ((i : ℕ) → slice_index s.bytes.now i < 256) };
}

impl<'a> PlainDigits<'a> {
    // The string of these bytes, past refusals 5 and 4.
    #[tactic(auto, using(crate::proofs::Tests::digit_string_is))]
    pub fn new(bytes: &'a [u8]) -> Result<PlainDigits<'a>, Refusal>
        ensures { MatchResult result (λ s. (string_verdict canonical_width bytes.now ≡ Ok tt) × (s ≡ bytes.now)) (λ r. string_verdict canonical_width bytes.now ≡ Err r) }
    {
        string_verdict(bytes, Width::CANONICAL)?;
        Ok(PlainDigits { bytes })
    }

    pub fn bytes(&self) -> &'a [u8]
        ensures value { result.now ≡ self.now }
        ensures small { (i : ℕ) → slice_index self.now i < 256 }
        ensures digit_string { DigitString canonical_width self.now }
    {
        self.bytes
    }
}
