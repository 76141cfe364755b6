// The steps of a string of the digits 0, 1 and -1, written.
#![tactic(auto)]

ghost use Rattle.std.specs.Prelude.{◌≡◌, ◌++◌, ◌*◌, ◌≤◌, pos, length, drop};
ghost use Rattle.rules.specs.Limits.{step_bytes};
ghost use Rattle.signed_digits.specs.Form.{SignedBits};
ghost use Rattle.signed_digits.specs.Modified.{top_digit};
ghost use Rattle.signed_digits.specs.Bytes.{string_of};
ghost use Rattle.chains.specs.Steps.{plan_bytes_of};
ghost use Rattle.methods.specs.DigitSteps.{digit_steps};

use plan_writing::Cursor;
use rules::NUMBER_WORDS;

// Room for the digits of every number, each one place up, in whole words: they can be one more than
// the bits.
pub const DIGIT_ROOM: usize = 64 * (NUMBER_WORDS + 1);

// Writes the steps of digits with 1 on top: these need no table, and begin at position 0, where 1
// stands.
pub fn write_steps(digits: &[u8], out: &mut [u8])
    requires bits { SignedBits (string_of digits.now) }
    requires top { top_digit (string_of digits.now) ≡ pos 1 }
    requires steps_in_bounds { step_bytes * length (digit_steps 0 (string_of digits.now)) ≤ length out.old }
    ensures { out.new ≡ plan_bytes_of (digit_steps 0 (string_of digits.now)) ++ drop (length (plan_bytes_of (digit_steps 0 (string_of digits.now)))) out.old }
{
    let mut c = Cursor::first();
    for i in (0..digits.len() - 1).rev() {
        c = c.at_digit(out, digits[i], 0);
    }
}
