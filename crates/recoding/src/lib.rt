// Recoding a number into its canonical string, the non-adjacent form.
#![tactic(auto)]

ghost use Rattle.std.specs.Prelude.{◌≡◌, length};
ghost use Rattle.recoding.specs.Recode.{recode_answer, recode_buffer};

use numbers::Number;
use recoding_digits::{count, write};
use rules::Refusal;

// Writes the canonical string of a number, lowest digit first, one byte a digit.
#[tactic(auto, using(rules::proofs::Fitted::too_small, rules::proofs::Fitted::fits, crate::proofs::Outcomes::length_recoding, crate::proofs::Outcomes::recoding_written))]
pub fn recode(number: &[u8], out: &mut [u8]) -> Result<usize, Refusal>
    ensures answer { result ≡ recode_answer number.now (length out.old) }
    ensures buffer { out.new ≡ recode_buffer number.now out.old }
{
    let number = Number::new(number)?;
    let length = count(&number);
    if out.len() < length {
        return Err(Refusal::RoomTooSmall(length));
    }
    write(number.bytes(), out, length);
    Ok(length)
}
