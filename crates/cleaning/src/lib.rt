// Cleaning a digit string into the canonical string of the same value.
#![tactic(auto)]

ghost use Rattle.std.specs.Prelude.{◌≡◌, length};
ghost use Rattle.cleaning.specs.Clean.{clean_answer, clean_buffer};

use cleaning_digits::{count, write};
use digit_strings::PlainDigits;
use rules::Refusal;

// Writes the canonical string of a digit string's value, lowest digit first.
#[tactic(auto, using(rules::proofs::Fitted::too_small, rules::proofs::Fitted::fits, crate::proofs::Outcomes::length_cleaning, crate::proofs::Outcomes::cleaning_written))]
pub fn clean(digits: &[u8], out: &mut [u8]) -> Result<usize, Refusal>
    ensures answer { result ≡ clean_answer digits.now (length out.old) }
    ensures buffer { out.new ≡ clean_buffer digits.now out.old }
{
    let digits = PlainDigits::new(digits)?;
    let length = count(&digits);
    if out.len() < length {
        return Err(Refusal::RoomTooSmall(length));
    }
    write(&digits, out, length);
    Ok(length)
}
