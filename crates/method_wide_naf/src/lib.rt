// Method 5, the NAF of width w: its steps counted, and written.
#![tactic(auto)]

ghost use Rattle.std.specs.Prelude.{◌≡◌, cond, ◌++◌, ◌*◌, ◌-◌, ◌≤◌, eqb, nat_abs, length, drop};
ghost use Rattle.rules.specs.Limits.{step_bytes};
ghost use Rattle.integers.specs.Positional.{bytes_value};
ghost use Rattle.signed_digits.specs.Bytes.{byte_digit};
ghost use Rattle.chains.specs.Steps.{plan_bytes_of};
ghost use Rattle.chains.specs.Counts.{counts_of};
ghost use Rattle.methods.specs.OddMultiples.{odd_position, table_length};
ghost use Rattle.methods.specs.WideNaf.{wide_naf_steps};

use numbers::PositiveNumber;
use plan_writing::Cursor;
use plan_writing::tables::{position, table_counts, table_length, write_table};
use rules::{Counts, Width};
use wide_digits::{DIGIT_ROOM, recoded};

// The position at which the table holds the size of a digit.
fn position_of(digit: u8) -> usize
    ensures { result ≡ odd_position (nat_abs (byte_digit digit)) }
{
    // Most digits are 0, and nothing is added for them: then the position is not worked out.
    if digit == 0 {
        return 0;
    }
    if digit < 128 {
        position(u64::from(digit))
    } else {
        position(256 - u64::from(digit))
    }
}

// How many steps of the table come first. With one digit, which is the number, it is cut there.
fn table_steps(length: usize, top: usize, width: Width) -> usize
    ensures { result ≡ cond (eqb length 1) top (table_length (width - 1)) }
{
    if length == 1 {
        top
    } else {
        table_length(width.bits() - 1)
    }
}

// The counts of the steps for a number above zero: those of the table, a doubling for each digit
// below the top one, an addition for each of these that is above zero, and a subtraction for each
// below. A digit is odd, or zero. In sums of 16 bits the compiler counts eight digits at once.
pub fn counts(number: &PositiveNumber, width: Width) -> Counts
    ensures { result ≡ counts_of (wide_naf_steps (bytes_value number.now) width) }
{
    let mut digits = [0u8; DIGIT_ROOM];
    let length = recoded(&number.number(), width, &mut digits);
    let mut plus: u16 = 0;
    let mut minus: u16 = 0;
    for &digit in &digits[..length] {
        plus += u16::from(digit % 2 - digit / 128);
        minus += u16::from(digit / 128);
    }
    let table = table_counts(table_steps(length, position_of(digits[length - 1]), width));
    Counts {
        doublings: table.doublings + (length - 1),
        additions: table.additions + (usize::from(plus) - 1),
        subtractions: usize::from(minus),
    }
}

// Writes the steps for a number above zero.
pub fn write(number: &PositiveNumber, width: Width, out: &mut [u8])
    requires { step_bytes * length (wide_naf_steps (bytes_value number.now) width) ≤ length out.old }
    ensures { out.new ≡ plan_bytes_of (wide_naf_steps (bytes_value number.now) width) ++ drop (length (plan_bytes_of (wide_naf_steps (bytes_value number.now) width))) out.old }
{
    let mut digits = [0u8; DIGIT_ROOM];
    let length = recoded(&number.number(), width, &mut digits);
    let top = position_of(digits[length - 1]);
    let table = write_table(out, table_steps(length, top, width), 1);
    let mut c = Cursor {
        steps: table.steps,
        latest: top,
    };
    for i in (0..length - 1).rev() {
        let digit = digits[i];
        c = c.at_digit(out, digit, position_of(digit));
    }
}
