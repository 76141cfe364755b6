// The width that a wide call is given, as one that is allowed.
#![tactic(auto)]

ghost use Rattle.std.specs.Prelude.{◌≡◌, Ok, Err, MatchResult};
ghost use Rattle.widths.specs.Width.{width_verdict};

use rules::{LARGEST_WIDTH, LEAST_WIDTH, Refusal, Width};

// Refusal 3, for every width outside the limits.
#[tactic(auto, using(crate::proofs::Tests::too_narrow, crate::proofs::Tests::too_wide, crate::proofs::Tests::in_limits))]
pub fn width_of(width: u32) -> Result<Width, Refusal>
    ensures { MatchResult result (λ w. (width_verdict width ≡ Ok tt) × (w ≡ width)) (λ r. width_verdict width ≡ Err r) }
{
    let bits = width as usize;
    if bits < LEAST_WIDTH || LARGEST_WIDTH < bits {
        return Err(Refusal::MethodOrWidth);
    }
    Ok(Width { bits })
}
