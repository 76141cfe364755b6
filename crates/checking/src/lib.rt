// Checking a plan for a number.
#![tactic(auto)]

ghost use Rattle.std.specs.Prelude.{◌≡◌, length};
ghost use Rattle.checking.specs.Check.{check_answer, check_space};

use check_admission::admit;
use rules::{Accepted, Counts, Refusal, STEP_BYTES};
use step_checking::check_step;
use step_reading::read_step;
use work_space::{begin, ends_at, grown_bits};

// Checks a plan for a number, in a lent work space.
pub fn check(number: &[u8], plan: &[u8], space: &mut [u8]) -> Result<Accepted, Refusal>
    ensures answer { result ≡ check_answer number.now plan.now (length space.old) }
    ensures space { space.new ≡ check_space number.now plan.now space.old }
{
    let number = admit(number, plan.len(), space.len())?;
    begin(space);
    let steps = plan.len() / STEP_BYTES;
    // Kept are the doublings, and all steps but the additions; the other counts follow at the end.
    let mut doublings = 0;
    let mut not_additions = 0;
    // The bit length of 1, at position 0. A step at most doubles the largest size: one bit more, or none.
    let mut largest_bits = 1;
    for n in 0..steps {
        let step = read_step(plan, n);
        let doubling = check_step(step, space, n)?;
        doublings += usize::from(doubling);
        not_additions += usize::from(doubling | (step.operation == 1));
        largest_bits = grown_bits(space, n + 1, largest_bits);
    }
    if !ends_at(&number, space, steps) {
        return Err(Refusal::WrongEnd(steps));
    }
    let additions = steps - not_additions;
    let subtractions = not_additions - doublings;
    let counts = Counts {
        doublings,
        additions,
        subtractions,
    };
    Ok(Accepted {
        counts,
        largest_bits,
    })
}
