// Method 2, fixed windows of `width` bits: its steps counted, and written.
#![tactic(auto)]

ghost use Rattle.std.specs.Prelude.{◌≡◌, ◌≢◌, cond, List, ◌++◌, ℕ, ◌+◌, ◌-◌, ◌*◌, ◌^◌, ◌≤◌, ◌<◌, eqb, length, drop};
ghost use Rattle.rules.specs.Limits.{number_bytes, step_bytes};
ghost use Rattle.integers.specs.Positional.{bytes_value};
ghost use Rattle.chains.specs.Steps.{plan_bytes_of};
ghost use Rattle.chains.specs.Counts.{counts_of};
ghost use Rattle.methods.specs.PartialPlan.{PartialPlan};
ghost use Rattle.methods.specs.FixedWindows.{window, top_window, at_fixed_window, window_steps, fixed_window_steps};
ghost use Rattle.methods.specs.Forecast.{nonzero_windows};
ghost use Rattle.plan_writing.specs.Writing.{Writing};

use integers::{bit_length, bits_at, byte_at, power_of_two};
use methods::FixedWidth;
use numbers::PositiveNumber;
use plan_writing::Cursor;
use plan_writing::tables::{table_counts, write_table};
use rules::Counts;

// The value of window i.
fn window_at(number: &[u8], width: FixedWidth, i: usize) -> usize
    requires { width * i ≤ 8 * number_bytes }
    ensures { result ≡ window (bytes_value number.now) width i }
{
    let bits = width.bits();
    bits_at(number, bits * i, bits) as usize
}

// The place of the top window, the one that holds the top bit: 0 for a number below 2^width.
#[tactic(auto, using(integers::proofs::Bits::some_bits, integers::proofs::Bits::bytes_length))]
fn top_window(number: &PositiveNumber, width: FixedWidth) -> usize
    ensures { (result ≡ top_window (bytes_value number.now) width) × (width * result ≤ 8 * number_bytes) }
{
    (bit_length(number.bytes()) - 1) / width.bits()
}

// The value of a number that a byte holds.
fn small_value(number: &[u8]) -> usize
    requires { bytes_value number.now < 256 }
    ensures { result ≡ bytes_value number.now }
{
    byte_at(number, 0) as usize
}

// How many steps the table has.
fn table_length(width: FixedWidth) -> usize
    ensures { result ≡ 2 ^ width - 2 }
{
    power_of_two(width.bits()) as usize - 2
}

// How many of the windows 0 to n - 1 are not zero.
fn nonzero_windows(number: &[u8], width: FixedWidth, n: usize) -> usize
    requires { width * n ≤ 8 * number_bytes }
    ensures { (result ≡ nonzero_windows (bytes_value number.now) width n) × (result ≤ n) }
{
    let mut total = 0;
    for i in 0..n {
        total += usize::from(window_at(number, width, i) != 0);
    }
    total
}

// The counts of the steps.
pub fn counts(number: &PositiveNumber, width: FixedWidth) -> Counts
    ensures { result ≡ counts_of (fixed_window_steps (bytes_value number.now) width) }
{
    let top = top_window(number, width);
    let bytes = number.bytes();
    if top == 0 {
        return table_counts(small_value(bytes) - 1);
    }
    let table = table_counts(table_length(width));
    Counts {
        doublings: table.doublings + width.bits() * top,
        additions: table.additions + nonzero_windows(bytes, width, top),
        subtractions: 0,
    }
}

// The steps of one window below the top.
fn at_window(c: Cursor, out: &mut [u8], width: FixedWidth, value: usize) -> Cursor
    requires { step_bytes * (c.steps + width + cond (eqb value 0) 0 1) ≤ length out.old }
    ensures { (result.steps ≡ c.steps + width + cond (eqb value 0) 0 1) × ((lent : List ℕ) (b : PartialPlan) → Writing lent out.old c b → Writing lent out.new result (at_fixed_window width value b)) }
{
    let moved = c.double_times(out, width.bits());
    if value == 0 {
        moved
    } else {
        moved.add_at(out, value - 1)
    }
}

// Writes the table, then the steps of the windows below the top one.
fn write_windows(number: &[u8], width: FixedWidth, top: usize, out: &mut [u8])
    requires top_value { top ≡ top_window (bytes_value number.now) width }
    requires number_nonzero { bytes_value number.now ≢ 0 }
    requires top_bound { width * top ≤ 8 * number_bytes }
    requires width_in_bounds { step_bytes * length (window_steps (bytes_value number.now) width) ≤ length out.old }
    ensures { out.new ≡ plan_bytes_of (window_steps (bytes_value number.now) width) ++ drop (length (plan_bytes_of (window_steps (bytes_value number.now) width))) out.old }
{
    let table = write_table(out, table_length(width), 0);
    let mut c = Cursor {
        steps: table.steps,
        latest: window_at(number, width, top) - 1,
    };
    for i in (0..top).rev() {
        c = at_window(c, out, width, window_at(number, width, i));
    }
}

// Writes the steps.
pub fn write(number: &PositiveNumber, width: FixedWidth, out: &mut [u8])
    requires { step_bytes * length (fixed_window_steps (bytes_value number.now) width) ≤ length out.old }
    ensures { out.new ≡ plan_bytes_of (fixed_window_steps (bytes_value number.now) width) ++ drop (length (plan_bytes_of (fixed_window_steps (bytes_value number.now) width))) out.old }
{
    let top = top_window(number, width);
    let bytes = number.bytes();
    if 0 < top {
        write_windows(bytes, width, top, out);
    } else {
        write_table(out, small_value(bytes) - 1, 0);
    }
}
