// Recoding a number into its non-adjacent form of a width from 2 to 8.
#![tactic(auto)]

ghost use Rattle.std.specs.Prelude.{◌≡◌, length};
ghost use Rattle.recoding_wide.specs.RecodeWide.{recode_wide_answer, recode_wide_buffer};

use numbers::Number;
use output::put;
use rules::Refusal;
use wide_digits::{DIGIT_ROOM, recoded};
use widths::width_of;

// Writes the form of a number, lowest digit first, one byte a digit.
#[tactic(auto, using(numbers::proofs::Tests::admitted_is, wide_digits::proofs::Form::form_bytes), unfolding(recoding::specs::Recode::recoding_of))]
pub fn recode_wide(number: &[u8], width: u32, out: &mut [u8]) -> Result<usize, Refusal>
    ensures answer { result ≡ recode_wide_answer width number.now (length out.old) }
    ensures buffer { out.new ≡ recode_wide_buffer width number.now out.old }
{
    let number = Number::new(number)?;
    let width = width_of(width)?;
    let mut digits = [0u8; DIGIT_ROOM];
    let length = recoded(&number, width, &mut digits);
    put(&digits[..length], out)
}
