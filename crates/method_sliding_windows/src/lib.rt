// Method 3, sliding windows of at most `width` bits: its steps counted, and written.
#![tactic(auto)]

ghost use Rattle.std.specs.Prelude.{◌≡◌, ◌≢◌, List, ◌++◌, ℕ, ◌+◌, ◌*◌, ◌-◌, ◌^◌, ◌≤◌, ◌<◌, length, drop};
ghost use Rattle.rules.specs.Limits.{number_bytes, step_bytes};
ghost use Rattle.integers.specs.Bits.{bit_length};
ghost use Rattle.integers.specs.Positional.{bytes_value, words_value};
ghost use Rattle.chains.specs.Steps.{plan_bytes_of};
ghost use Rattle.chains.specs.Counts.{counts_of};
ghost use Rattle.methods.specs.PartialPlan.{PartialPlan};
ghost use Rattle.methods.specs.Widths.{sliding_window_bits};
ghost use Rattle.methods.specs.SlidingWindows.{sliding_window_steps};
ghost use Rattle.methods.specs.Forecast.{later_windows};
ghost use Rattle.plan_writing.specs.Writing.{Writing};
ghost use Rattle.method_sliding_windows.specs.Scan.{first_in, at_sliding_window, windows_in, Turn, table_steps, start_of};

use integers::bit_length;
use methods::{SLIDING_WINDOW_BITS, SlidingWidth};
use numbers::PositiveNumber;
use plan_writing::Cursor;
use plan_writing::tables::{position, table_counts, table_length, write_table};
use rules::Counts;
use words::bits_down;

// The number of values of a widest window.
const WINDOW_VALUES: u64 = 1 << SLIDING_WINDOW_BITS;

// Of the 64 bits that are read at once, those above the lowest such window.
const BITS_ABOVE: usize = 64 - SLIDING_WINDOW_BITS;

// A window and the zeros above it: how many bits they are, and the window's value.
#[derive(Clone, Copy)]
struct Window {
    bits: usize,
    value: u64,
}

// What the scan takes at once: the zeros from a place down and the window below them, with its
// value; or zeros alone.
#[derive(Clone, Copy)]
struct Taken {
    bits: usize,
    value: Option<u64>,
}

// Where the scan starts: the place below the first window, the position of its value, and how many
// steps of the table come before.
#[derive(Drop)]
struct Start {
    below: usize,
    position: usize,
    table: usize,
}

// Of the 64 bits from a place down, the zeros down to the highest 1 and the window that begins
// there. A window ends in 1: the zeros below its last 1 are not in it.
fn window_in(bits: u64, width: SlidingWidth) -> Window
    requires { 2 ^ sliding_window_bits ≤ bits }
    ensures { result ≡ first_in bits width }
{
    let width = width.bits();
    let zeros = bits.leading_zeros() as usize;
    let window = bits >> (64 - zeros - width);
    let trailing = window.trailing_zeros() as usize;
    let taken = zeros + width - trailing;
    let value = window >> trailing;
    Window {
        bits: taken,
        value: value,
    }
}

// What the scan takes below a place. If it sees no window that is whole, that is zeros: of 64 bits,
// all but those of a window.
fn next_window(words: &[u64], place: usize, width: SlidingWidth) -> Taken
    requires { 1 ≤ place }
    ensures { Turn (words_value words.now) width place result }
{
    let bits = bits_down(words, place - 1);
    if bits < WINDOW_VALUES {
        return Taken {
            bits: place.min(BITS_ABOVE),
            value: None,
        };
    }
    let window = window_in(bits, width);
    Taken {
        bits: window.bits,
        value: Some(window.value),
    }
}

// How many steps of the table come before the scan. With nothing below the first window, the number
// is odd and below 2 to the power of the width, and the table stops at it.
fn table_steps(below: usize, at: usize, width: SlidingWidth) -> usize
    ensures { result ≡ table_steps below at width }
{
    if below == 0 {
        at
    } else {
        table_length(width.bits())
    }
}

// Where the scan of a number above zero starts, whose top bit stands at place n.
fn start_of(words: &[u64], n: usize, width: SlidingWidth) -> Start
    requires words_nonzero { words_value words.now ≢ 0 }
    requires n_value { n ≡ bit_length (words_value words.now) - 1 }
    requires n_bound { n < 8 * number_bytes }
    ensures { result ≡ start_of (words_value words.now) width }
{
    let window = window_in(bits_down(words, n), width);
    let below = n + 1 - window.bits;
    let at = position(window.value);
    Start {
        below: below,
        position: at,
        table: table_steps(below, at, width),
    }
}

// How many windows the scan meets below a place.
fn later_windows(words: &[u64], below: usize, width: SlidingWidth) -> usize
    ensures { result ≡ later_windows (words_value words.now) width below below }
{
    let mut windows: usize = 0;
    let mut i = below;
    while 0 < i {
        let taken = next_window(words, i, width);
        windows += usize::from(taken.value.is_some());
        i -= taken.bits;
    }
    windows
}

// The counts of the steps: those of the table, a doubling for each bit
// below the first window, an addition for each later window.
pub fn counts(number: &PositiveNumber, width: SlidingWidth) -> Counts
    ensures { result ≡ counts_of (sliding_window_steps (bytes_value number.now) width) }
{
    let words = number.words();
    let start = start_of(&words, bit_length(number.bytes()) - 1, width);
    let table = table_counts(start.table);
    let windows = later_windows(&words, start.below, width);
    Counts {
        doublings: table.doublings + start.below,
        additions: table.additions + windows,
        subtractions: 0,
    }
}

// The steps of what the scan takes at a place.
fn at_window(c: Cursor, out: &mut [u8], taken: Taken) -> Cursor
    requires { step_bytes * (c.steps + taken.bits + windows_in taken.value) ≤ length out.old }
    ensures { (result.steps ≡ c.steps + taken.bits + windows_in taken.value) × ((lent : List ℕ) (b : PartialPlan) → Writing lent out.old c b → Writing lent out.new result (at_sliding_window taken b)) }
{
    let bits = taken.bits;
    let doubled = c.double_times(out, bits);
    match taken.value {
        Some(value) => doubled.add_at(out, position(value)),
        None => doubled,
    }
}

// Writes the steps.
pub fn write(number: &PositiveNumber, width: SlidingWidth, out: &mut [u8])
    requires { step_bytes * length (sliding_window_steps (bytes_value number.now) width) ≤ length out.old }
    ensures { out.new ≡ plan_bytes_of (sliding_window_steps (bytes_value number.now) width) ++ drop (length (plan_bytes_of (sliding_window_steps (bytes_value number.now) width))) out.old }
{
    let words = number.words();
    let start = start_of(&words, bit_length(number.bytes()) - 1, width);
    let table = write_table(out, start.table, 1);
    let mut c = Cursor {
        steps: table.steps,
        latest: start.position,
    };
    let mut i = start.below;
    while 0 < i {
        let taken = next_window(&words, i, width);
        c = at_window(c, out, taken);
        i -= taken.bits;
    }
}
