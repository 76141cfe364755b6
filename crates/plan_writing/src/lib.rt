// Writing the steps of a plan one after the other.
#![tactic(auto)]

pub mod tables;

ghost use Rattle.std.specs.Prelude.{◌≡◌, ◌≢◌, List, ◌++◌, ℕ, ◌+◌, ◌*◌, ◌≤◌, ◌<◌, nat_abs, length, take, drop};
ghost use Rattle.rules.specs.Limits.{step_bytes};
ghost use Rattle.signed_digits.specs.Bytes.{byte_digit};
ghost use Rattle.chains.specs.Steps.{step_bytes_of};
ghost use Rattle.methods.specs.PartialPlan.{PartialPlan, double, doubled, add_at, followed};
ghost use Rattle.methods.specs.OddMultiples.{odd_position};
ghost use Rattle.methods.specs.DigitSteps.{at_digit};
ghost use Rattle.plan_writing.specs.Writing.{Writing, step_with};

use rules::STEP_BYTES;

// How many steps stand, and the position called latest.
#[derive(Clone, Copy)]
pub struct Cursor {
    pub steps: usize,
    pub latest: usize,
}

// Writes step n, counted from 0; the operation is the byte that the plan has. By five stores:
// copy_from_slice of an array takes six times as long.
pub fn put(out: &mut [u8], n: usize, operation: u8, j: usize, k: usize)
    requires { step_bytes * n + step_bytes ≤ length out.old }
    ensures { out.new ≡ take (step_bytes * n) out.old ++ (step_bytes_of (step_with operation j k) ++ drop (step_bytes * n + step_bytes) out.old) }
{
    let at = STEP_BYTES * n;
    let [j_low, j_high, ..] = j.to_le_bytes();
    let [k_low, k_high, ..] = k.to_le_bytes();
    out[at] = operation;
    out[at + 1] = j_low;
    out[at + 2] = j_high;
    out[at + 3] = k_low;
    out[at + 4] = k_high;
}

impl Cursor {
    // Before the first step: position 0 is the latest.
    pub fn first() -> Cursor
        ensures { (result.steps ≡ 0) × (result.latest ≡ 0) }
    {
        Cursor {
            steps: 0,
            latest: 0,
        }
    }

    // The operation of latest and p: one step more, which fills the next position.
    pub fn step_at(self, out: &mut [u8], operation: u8, p: usize) -> Cursor
        requires { step_bytes * self.steps + step_bytes ≤ length out.old }
        ensures { (result.steps ≡ self.steps + 1) × ((lent : List ℕ) (b : PartialPlan) → Writing lent out.old self b → Writing lent out.new result (followed b (step_with operation b.latest p))) }
    {
        put(out, self.steps, operation, self.latest, p);
        let steps = self.steps + 1;
        Cursor {
            steps,
            latest: steps,
        }
    }

    // add(latest, p)
    pub fn add_at(self, out: &mut [u8], p: usize) -> Cursor
        requires { step_bytes * self.steps + step_bytes ≤ length out.old }
        ensures { (result.steps ≡ self.steps + 1) × ((lent : List ℕ) (b : PartialPlan) → Writing lent out.old self b → Writing lent out.new result (add_at p b)) }
    {
        self.step_at(out, 0, p)
    }

    // add(latest, latest)
    pub fn double(self, out: &mut [u8]) -> Cursor
        requires { step_bytes * self.steps + step_bytes ≤ length out.old }
        ensures { (result.steps ≡ self.steps + 1) × ((lent : List ℕ) (b : PartialPlan) → Writing lent out.old self b → Writing lent out.new result (double b)) }
    {
        self.step_at(out, 0, self.latest)
    }

    // The same n times.
    pub fn double_times(self, out: &mut [u8], n: usize) -> Cursor
        requires { step_bytes * (self.steps + n) ≤ length out.old }
        ensures { (result.steps ≡ self.steps + n) × ((lent : List ℕ) (b : PartialPlan) → Writing lent out.old self b → Writing lent out.new result (doubled n b)) }
    {
        let mut last = self;
        for _ in 0..n {
            last = last.double(out);
        }
        last
    }

    // What a digit below the top takes: double, then for a digit other than 0 add what stands at p,
    // or subtract it for one below zero. The highest bit, which is the sign, is also the operation.
    #[tactic(auto, using(crate::proofs::Digits::step_beside))]
    pub fn at_digit(self, out: &mut [u8], digit: u8, p: usize) -> Cursor
        requires position { digit ≢ 0 → p ≡ odd_position (nat_abs (byte_digit digit)) }
        requires steps_in_bounds { step_bytes * (self.steps + 1) ≤ length out.old }
        requires steps_in_bounds_2 { digit ≢ 0 → step_bytes * (self.steps + 2) ≤ length out.old }
        ensures { (lent : List ℕ) (b : PartialPlan) → Writing lent out.old self b → Writing lent out.new result (at_digit (byte_digit digit) b) }
    {
        let doubled = self.double(out);
        if digit == 0 {
            doubled
        } else {
            doubled.step_at(out, digit / 128, p)
        }
    }
}
