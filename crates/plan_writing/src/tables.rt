// The tables of multiples that methods begin with.
ghost use Rattle.std.specs.Prelude.{◌≡◌, ◌*◌, ◌≤◌, length};
ghost use Rattle.rules.specs.Limits.{step_bytes};
ghost use Rattle.methods.specs.Tables.{table_by, table_counts, second_of};
ghost use Rattle.methods.specs.OddMultiples.{odd_position, table_length};
ghost use Rattle.plan_writing.specs.Writing.{Writing};

use crate::Cursor;
use integers::power_of_two;
use rules::Counts;

// The counts of the first n steps of a table.
#[tactic(auto, unfolding(methods::specs::Tables::table_counts))]
pub fn table_counts(n: usize) -> Counts
    ensures { result ≡ table_counts n }
{
    Counts {
        doublings: usize::from(n != 0),
        additions: n.saturating_sub(1),
        subtractions: 0,
    }
}

// The position that step i, counted from 0, adds to the one filled last.
fn second(i: usize, later: usize) -> usize
    ensures { result ≡ second_of later i }
{
    if i < 2 { 0 } else { later }
}

// Writes the first n steps of a table: add(0,0), add(1,0), then add(i-1, later) for i = 3 on. If
// later is 0, it holds all multiples; if it is 1, the odd ones.
pub fn write_table(out: &mut [u8], n: usize, later: usize) -> Cursor
    requires { step_bytes * n ≤ length out.old }
    ensures { Writing out.old out.new result (record { steps = table_by (second_of later) n; latest = n }) }
{
    let mut c = Cursor::first();
    for i in 0..n {
        c = c.add_at(out, second(i, later));
    }
    c
}

// How many steps the whole table of odd multiples has, for windows of this many bits.
pub fn table_length(width: usize) -> usize
    requires { width ≤ 64 }
    ensures { result ≡ table_length width }
{
    if width < 2 {
        0
    } else {
        power_of_two(width - 1) as usize
    }
}

// The position at which it holds an odd value.
pub fn position(value: u64) -> usize
    ensures { result ≡ odd_position value }
{
    if value == 1 {
        0
    } else {
        (value / 2 + value % 2) as usize
    }
}
