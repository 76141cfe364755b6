// Method 4, NAF: its steps counted, and written.
#![tactic(auto)]

ghost use Rattle.std.specs.Prelude.{◌≡◌, ◌++◌, ◌*◌, ◌≤◌, length, drop};
ghost use Rattle.rules.specs.Limits.{step_bytes};
ghost use Rattle.integers.specs.Positional.{bytes_value};
ghost use Rattle.chains.specs.Steps.{plan_bytes_of};
ghost use Rattle.chains.specs.Counts.{counts_of};
ghost use Rattle.methods.specs.NonAdjacentForm.{naf_steps};

use digit_plans::{DIGIT_ROOM, write_steps};
use naf_tally::tally_of;
use numbers::PositiveNumber;
use recoding_words_digits::write_raised;
use rules::Counts;
use triples::Tripled;

// The counts of the steps for a number above zero: a doubling for each digit below the top one, which
// is 1, an addition for each of these that is 1, and a subtraction for each -1. The digits are one
// fewer than the bits of 3 e.
pub fn counts(number: &PositiveNumber) -> Counts
    ensures { result ≡ counts_of (naf_steps (bytes_value number.now)) }
{
    let digits = tally_of(&number.number());
    Counts {
        doublings: digits.length - 2,
        additions: digits.plus - 1,
        subtractions: digits.minus,
    }
}

// Writes the steps for a number above zero.
pub fn write(number: &PositiveNumber, out: &mut [u8])
    requires { step_bytes * length (naf_steps (bytes_value number.now)) ≤ length out.old }
    ensures { out.new ≡ plan_bytes_of (naf_steps (bytes_value number.now)) ++ drop (length (plan_bytes_of (naf_steps (bytes_value number.now)))) out.old }
{
    let tripled = Tripled::new(number.words());
    let length = tripled.count(&number.number());
    let mut digits = [0u8; DIGIT_ROOM];
    write_raised(tripled.words(), tripled.triple(), &mut digits, length);
    write_steps(&digits[1..length + 1], out);
}
