// Cleaning a digit string of a width from 2 to 8 into the non-adjacent form of the same value: its sign and
// its size are read back, and the digits of these written.
#![tactic(auto)]

ghost use Rattle.std.specs.Prelude.{◌≡◌, length};
ghost use Rattle.cleaning_wide.specs.CleanWide.{clean_wide_answer, clean_wide_buffer};

use output::put;
use reading::{ReadBack, read_of_width};
use reading_digits::SIZE_BYTES;
use rules::{LARGEST_WIDTH, Refusal, STRING_DIGITS};
use wide_digits::write;
use widths::width_of;

// Room for every form: as many digits more than the string has as the largest width.
const DIGIT_ROOM: usize = STRING_DIGITS + LARGEST_WIDTH;

// Writes the form of a digit string's value, lowest digit first, one byte a digit.
pub fn clean_wide(digits: &[u8], width: u32, out: &mut [u8]) -> Result<usize, Refusal>
    ensures answer { result ≡ clean_wide_answer width digits.now (length out.old) }
    ensures buffer { out.new ≡ clean_wide_buffer width digits.now out.old }
{
    let width = width_of(width)?;
    let mut size = [0u8; SIZE_BYTES];
    let ReadBack { sign, .. } = read_of_width(digits, width, &mut size)?;
    let mut form = [0u8; DIGIT_ROOM];
    let bits = digits.len() + (width.bits() - 1);
    let length = write(&size, bits, width, sign, &mut form);
    put(&form[..length], out)
}
