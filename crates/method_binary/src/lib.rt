// Method 1, binary: its steps counted, and written.
#![tactic(auto)]

ghost use Rattle.std.specs.Prelude.{◌≡◌, List, ◌++◌, ℕ, ◌+◌, ◌*◌, ◌≤◌, ◌<◌, length, drop};
ghost use Rattle.rules.specs.Limits.{step_bytes};
ghost use Rattle.integers.specs.Positional.{bytes_value};
ghost use Rattle.chains.specs.Steps.{plan_bytes_of};
ghost use Rattle.chains.specs.Counts.{counts_of};
ghost use Rattle.methods.specs.PartialPlan.{PartialPlan};
ghost use Rattle.methods.specs.Binary.{at_bit, binary_steps};
ghost use Rattle.plan_writing.specs.Writing.{Writing};

use integers::{bit_at, bit_length, ones};
use numbers::PositiveNumber;
use plan_writing::Cursor;
use rules::Counts;

// The counts of the steps: the bit length less one, the ones less one.
#[tactic(auto, using(integers::proofs::Bits::some_bits, methods::proofs::Binary::ones_positive, methods::proofs::Binary::binary_counts))]
pub fn counts(number: &PositiveNumber) -> Counts
    ensures { result ≡ counts_of (binary_steps (bytes_value number.now)) }
{
    let number = number.bytes();
    Counts {
        doublings: bit_length(number) - 1,
        additions: ones(number) - 1,
        subtractions: 0,
    }
}

// The steps of one bit below the top.
fn at_bit(c: Cursor, out: &mut [u8], bit: u64) -> Cursor
    requires bit_bound { bit < 2 }
    requires bit_in_bounds { step_bytes * (c.steps + bit + 1) ≤ length out.old }
    ensures { (result.steps ≡ c.steps + bit + 1) × ((lent : List ℕ) (b : PartialPlan) → Writing lent out.old c b → Writing lent out.new result (at_bit bit b)) }
{
    let doubled = c.double(out);
    if bit == 0 {
        doubled
    } else {
        doubled.add_at(out, 0)
    }
}

// Writes the steps.
pub fn write(number: &PositiveNumber, out: &mut [u8])
    requires { step_bytes * length (binary_steps (bytes_value number.now)) ≤ length out.old }
    ensures { out.new ≡ plan_bytes_of (binary_steps (bytes_value number.now)) ++ drop (length (plan_bytes_of (binary_steps (bytes_value number.now)))) out.old }
{
    let number = number.bytes();
    let top = bit_length(number) - 1;
    let mut c = Cursor::first();
    for i in (0..top).rev() {
        c = at_bit(c, out, bit_at(number, i));
    }
}
