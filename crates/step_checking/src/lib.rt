// Checking one step of a plan.
#![tactic(auto)]

ghost use Rattle.std.specs.Prelude.{◌+◌, ◌*◌, ◌≤◌, length};
ghost use Rattle.rules.specs.Limits.{record_bytes};
ghost use Rattle.step_reading.specs.Fields.{as_step};
ghost use Rattle.step_values.specs.Verdicts.{StepChecked};

use rules::{RECORD_BYTES, Refusal};
use step_reading::Step;
use step_values::{difference_step, sum_step};

// Tests the step after n others, and records its value if it passes. Answers whether it is a doubling.
#[tactic(auto, using(step_values::proofs::Tested::within))]
pub fn check_step(step: Step, space: &mut [u8], n: usize) -> Result<bool, Refusal>
    requires { record_bytes * n + 2 * record_bytes ≤ length space.old }
    ensures { StepChecked (as_step step) n space.old space.new result }
{
    let i = n + 1;
    let j = step.first;
    let k = step.second;
    let well_formed = (step.operation <= 1) & (j < i) & (k < i);
    if !well_formed {
        return Err(Refusal::MalformedStep(i));
    }
    let a = RECORD_BYTES * j;
    let b = RECORD_BYTES * k;
    // Whether what is added, the second value or its opposite if the step subtracts, has the sign of the
    // first.
    if (space[a] ^ space[b]) == step.operation {
        sum_step(space, a, b, i)
    } else {
        difference_step(space, a, b, i)
    }
}
