// Method 6, modified NAF: its steps counted, and written.
#![tactic(auto)]

ghost use Rattle.std.specs.Prelude.{◌≡◌, ◌++◌, ◌*◌, ◌≤◌, length, drop};
ghost use Rattle.rules.specs.Limits.{step_bytes};
ghost use Rattle.integers.specs.Positional.{bytes_value};
ghost use Rattle.chains.specs.Steps.{plan_bytes_of};
ghost use Rattle.chains.specs.Counts.{counts_of};
ghost use Rattle.methods.specs.ModifiedNaf.{modified_naf_steps};

use digit_plans::{DIGIT_ROOM, write_steps};
use modified_digits::{shape_of, write_form_raised};
use numbers::PositiveNumber;
use rules::Counts;
use triples::Tripled;

// The counts of the steps for a number above zero: those of method 4, but where 1 0 -1 become 1 1, a
// doubling and a subtraction fewer and an addition more. Method 4 doubles for each digit but one.
pub fn counts(number: &PositiveNumber) -> Counts
    ensures { result ≡ counts_of (modified_naf_steps (bytes_value number.now)) }
{
    let tripled = Tripled::new(number.words());
    let plain = method_naf::counts(number);
    let fewer = tripled.saved(plain.doublings + 1);
    let doublings = plain.doublings - fewer;
    let additions = plain.additions + fewer;
    let subtractions = plain.subtractions - fewer;
    Counts {
        doublings,
        additions,
        subtractions,
    }
}

// Writes the steps for a number above zero.
pub fn write(number: &PositiveNumber, out: &mut [u8])
    requires { step_bytes * length (modified_naf_steps (bytes_value number.now)) ≤ length out.old }
    ensures { out.new ≡ plan_bytes_of (modified_naf_steps (bytes_value number.now)) ++ drop (length (plan_bytes_of (modified_naf_steps (bytes_value number.now)))) out.old }
{
    let tripled = Tripled::new(number.words());
    let form = shape_of(&number.number(), tripled.triple());
    let mut digits = [0u8; DIGIT_ROOM];
    write_form_raised(tripled.words(), tripled.triple(), &mut digits, form);
    write_steps(&digits[1..form.length + 1], out);
}
