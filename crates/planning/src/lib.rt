// Plans and forecasts for a number, by method and width.
#![tactic(auto)]

ghost use Rattle.std.specs.Prelude.{◌≡◌, ◌++◌, ◌*◌, ◌≤◌, length, drop};
ghost use Rattle.rules.specs.Limits.{step_bytes};
ghost use Rattle.integers.specs.Positional.{bytes_value};
ghost use Rattle.chains.specs.Steps.{plan_bytes_of};
ghost use Rattle.chains.specs.Counts.{counts_of};
ghost use Rattle.methods.specs.Method.{Allowed, steps_by};
ghost use Rattle.planning.specs.Plan.{forecast_answer, plan_answer, plan_buffer};

use methods::{FixedWidth, Method, SlidingWidth};
use numbers::PositiveNumber;
use requests::{Request, requested};
use rules::{Counts, Refusal, STEP_BYTES, Width};

// The counts of the steps that a method gives for a number. A line a method.
#[tactic(auto, using(methods::proofs::Every::fixed_widths, methods::proofs::Every::sliding_widths, methods::proofs::Every::wide_widths))]
fn counts(number: &PositiveNumber, method: Method) -> Counts
    requires { Allowed method }
    ensures { result ≡ counts_of (steps_by method (bytes_value number.now)) }
{
    match method {
        Method::Binary => method_binary::counts(number),
        Method::FixedWindows(d) => method_fixed_windows::counts(number, FixedWidth { bits: d }),
        Method::SlidingWindows(d) => method_sliding_windows::counts(
            number,
            SlidingWidth { bits: d },
        ),
        Method::Naf => method_naf::counts(number),
        Method::WideNaf(w) => method_wide_naf::counts(number, Width { bits: w }),
        Method::ModifiedNaf => method_modified_naf::counts(number),
    }
}

// Writes those steps. A line a method.
#[tactic(auto, using(methods::proofs::Every::fixed_widths, methods::proofs::Every::sliding_widths, methods::proofs::Every::wide_widths))]
fn write(number: &PositiveNumber, method: Method, out: &mut [u8])
    requires allowed { Allowed method }
    requires number_in_bounds { step_bytes * length (steps_by method (bytes_value number.now)) ≤ length out.old }
    ensures { out.new ≡ plan_bytes_of (steps_by method (bytes_value number.now)) ++ drop (length (plan_bytes_of (steps_by method (bytes_value number.now)))) out.old }
{
    match method {
        Method::Binary => method_binary::write(number, out),
        Method::FixedWindows(d) => method_fixed_windows::write(number, FixedWidth { bits: d }, out),
        Method::SlidingWindows(d) => method_sliding_windows::write(
            number,
            SlidingWidth { bits: d },
            out,
        ),
        Method::Naf => method_naf::write(number, out),
        Method::WideNaf(w) => method_wide_naf::write(number, Width { bits: w }, out),
        Method::ModifiedNaf => method_modified_naf::write(number, out),
    }
}

// The counts of the steps of a plan, without the plan. Those of method 1 do not go through `counts`:
// to hand them over in memory takes as long as to count them.
#[tactic(auto, using(requests::proofs::Requests::granted_allowed))]
pub fn forecast(number: &[u8], method: u32, width: u32) -> Result<Counts, Refusal>
    ensures { result ≡ forecast_answer number.now method width }
{
    let Request { number, method } = requested(number, method, width)?;
    match method {
        Method::Binary => Ok(method_binary::counts(&number)),
        _ => Ok(counts(&number, method)),
    }
}

// Writes the plan for a number by a method, and answers the counts of its steps.
#[tactic(auto, using(requests::proofs::Requests::granted_allowed, rules::proofs::Fitted::too_small, rules::proofs::Fitted::fits, chains::proofs::Bytes::length_plan, chains::proofs::Counts::length_counted, crate::proofs::Outcomes::counted_few))]
pub fn plan(number: &[u8], method: u32, width: u32, out: &mut [u8]) -> Result<Counts, Refusal>
    ensures answer { result ≡ plan_answer number.now method width (length out.old) }
    ensures buffer { out.new ≡ plan_buffer number.now method width out.old }
{
    let Request { number, method } = requested(number, method, width)?;
    let steps = counts(&number, method);
    let needed = STEP_BYTES * (steps.doublings + steps.additions + steps.subtractions);
    if out.len() < needed {
        return Err(Refusal::RoomTooSmall(needed));
    }
    write(&number, method, out);
    Ok(steps)
}
