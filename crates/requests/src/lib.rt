// What is asked for by number, method and width: refusals 1, 13, 2 and 3, in this order.
#![tactic(auto)]

ghost use Rattle.std.specs.Prelude.{◌≡◌, Ok, Err, MatchResult};
ghost use Rattle.methods.specs.Method.{method_of};
ghost use Rattle.requests.specs.Request.{request};

use methods::{FIXED_WINDOW_BITS, Method, SLIDING_WINDOW_BITS};
use numbers::PositiveNumber;
use rules::{LARGEST_WIDTH, LEAST_WIDTH, Refusal};

// The method that the two numbers ask for, at a width that it allows; else refusal 3. A line a method.
#[tactic(auto, using(crate::proofs::Requests::binary, crate::proofs::Requests::fixed_windows, crate::proofs::Requests::sliding_windows, crate::proofs::Requests::naf, crate::proofs::Requests::wide_naf, crate::proofs::Requests::modified_naf, crate::proofs::Requests::no_method, crate::proofs::Requests::width_allowed, crate::proofs::Requests::width_too_narrow, crate::proofs::Requests::width_too_wide))]
fn method_of(method: u32, width: u32) -> Result<Method, Refusal>
    ensures { result ≡ method_of method width }
{
    let d = width as usize;
    match (method, d) {
        (1, 0) => Ok(Method::Binary),
        (2, 1..=FIXED_WINDOW_BITS) => Ok(Method::FixedWindows(d)),
        (3, 1..=SLIDING_WINDOW_BITS) => Ok(Method::SlidingWindows(d)),
        (4, 0) => Ok(Method::Naf),
        (5, LEAST_WIDTH..=LARGEST_WIDTH) => Ok(Method::WideNaf(d)),
        (6, 0) => Ok(Method::ModifiedNaf),
        _ => Err(Refusal::MethodOrWidth),
    }
}

// What is granted: a number that is not zero, and a method.
#[derive(Drop)]
pub struct Request<'a> {
    pub number: PositiveNumber<'a>,
    pub method: Method,
}

// What the three ask for, after refusals 1, 13 and 2.
#[tactic(auto, unfolding(crate::specs::Request::request))]
pub fn requested<'a>(number: &'a [u8], method: u32, width: u32) -> Result<Request<'a>, Refusal>
    ensures { MatchResult result (λ r. (request number.now method width ≡ Ok r.method) × (r.number ≡ number.now)) (λ r. request number.now method width ≡ Err r) }
{
    let number = PositiveNumber::new(number)?;
    let method = method_of(method, width)?;
    Ok(Request { number, method })
}
