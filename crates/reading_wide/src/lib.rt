// Reading back a digit string of any width that is allowed.
#![tactic(auto)]

ghost use Rattle.std.specs.Prelude.{◌≡◌, length};
ghost use Rattle.reading_wide.specs.ReadBackWide.{read_back_wide_answer, read_back_wide_buffer};

use reading::{ReadBack, read_of_width};
use rules::Refusal;
use widths::width_of;

// Read back with the width of the digits given: writes the size of the string's value, with no high
// zero byte, least significant first; answers the sign and how many bytes.
pub fn read_back_wide(digits: &[u8], width: u32, out: &mut [u8]) -> Result<ReadBack, Refusal>
    ensures answer { result ≡ read_back_wide_answer width digits.now (length out.old) }
    ensures buffer { out.new ≡ read_back_wide_buffer width digits.now out.old }
{
    let width = width_of(width)?;
    read_of_width(digits, width, out)
}
