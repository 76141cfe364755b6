// Reading the steps of a plan one by one.
#![tactic(auto)]

ghost use Rattle.std.specs.Prelude.{◌≡◌, ◌+◌, ◌*◌, ◌≤◌, length, take, drop};
ghost use Rattle.rules.specs.Limits.{step_bytes};
ghost use Rattle.integers.specs.Positional.{bytes_value};
ghost use Rattle.chains.specs.Steps.{read_step};
ghost use Rattle.step_reading.specs.Fields.{as_step};

use rules::STEP_BYTES;

// A step: a(first) + a(second), or a(first) - a(second). The operation is the byte of the plan, which may
// be any: whether it is one of the two is refusal 9, tested together with the positions.
#[derive(Clone, Copy)]
pub struct Step {
    pub operation: u8,
    pub first: usize,
    pub second: usize,
}

// The position whose two bytes stand at `at`.
#[tactic(auto, using(crate::proofs::Bytes::two_bytes))]
fn position_at(plan: &[u8], at: usize) -> usize
    requires { at + 2 ≤ length plan.now }
    ensures { result ≡ bytes_value (take 2 (drop at plan.now)) }
{
    usize::from(u16::from_le_bytes([plan[at], plan[at + 1]]))
}

// The step after n others.
#[tactic(auto, using(crate::proofs::Bytes::step_there))]
pub fn read_step(plan: &[u8], n: usize) -> Step
    requires { step_bytes * n + step_bytes ≤ length plan.now }
    ensures { as_step result ≡ read_step (drop (step_bytes * n) plan.now) }
{
    let at = STEP_BYTES * n;
    Step {
        operation: plan[at],
        first: position_at(plan, at + 1),
        second: position_at(plan, at + 3),
    }
}
