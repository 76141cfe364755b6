// Whether a plan is checked at all: the tests before its steps.
#![tactic(auto)]

ghost use Rattle.std.specs.Prelude.{◌≡◌, Ok, Err, MatchResult};
ghost use Rattle.check_admission.specs.Admission.{admission};

use numbers::PositiveNumber;
use rules::{PLAN_STEPS, RECORD_BYTES, Refusal, STEP_BYTES};

// The most bytes of a plan.
const PLAN_BYTES: usize = STEP_BYTES * PLAN_STEPS;

// The tests before the steps: refusals 1, 13, 2, 7 and 8. Past them, the number is one that is not zero.
#[tactic(auto, using(crate::proofs::Admission::length_refused, crate::proofs::Admission::space_refused, crate::proofs::Admission::all_passed), unfolding(crate::specs::Admission::admission))]
pub fn admit<'a>(
    number: &'a [u8],
    plan_length: usize,
    room: usize,
) -> Result<PositiveNumber<'a>, Refusal>
    ensures { MatchResult result (λ n. (admission number.now plan_length room ≡ Ok tt) × (n ≡ number.now)) (λ r. admission number.now plan_length room ≡ Err r) }
{
    let positive = PositiveNumber::new(number)?;
    if plan_length % STEP_BYTES != 0 || PLAN_BYTES < plan_length {
        return Err(Refusal::PlanLength);
    }
    if room < RECORD_BYTES * (plan_length / STEP_BYTES) + RECORD_BYTES {
        return Err(Refusal::WorkSpaceTooShort);
    }
    Ok(positive)
}
