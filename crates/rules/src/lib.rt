// What every call shares (docs/RULES.md): the limits, the refusals, and the forms of an answer.
//
// In the code a limit's number stands here and in specs/Limits.antt, and `current` shows that the two
// agree. docs/ARCHITECTURE.md, "How to change a limit", names the other files.
#![tactic(auto)]

ghost use Rattle.std.specs.Prelude.{◌≡◌};
ghost use Rattle.rules.specs.Limits.{documented};
ghost use Rattle.rules.specs.Refusals.{refusal_number, refusal_place};

use std::marker::Model;

// The version: 10000 * major + 100 * minor + patch.
pub const VERSION: u32 = 800;

// The most bytes of a number.
pub const NUMBER_BYTES: usize = 48;

// The words of eight bytes that hold such a number, whose limit is a multiple of eight.
pub const NUMBER_WORDS: usize = NUMBER_BYTES / 8;

// The most digits of a digit string that is handed in.
pub const STRING_DIGITS: usize = 768;

// The least and the largest width of a non-adjacent form: up to the largest, every digit has a byte.
pub const LEAST_WIDTH: usize = 2;

pub const LARGEST_WIDTH: usize = 8;

// The bytes of a step of a plan, and the most steps of a plan.
pub const STEP_BYTES: usize = 5;

pub const PLAN_STEPS: usize = 960;

// Each value of a plan has a size of this many bytes, so it is below 2^(8 VALUE_BYTES).
pub const VALUE_BYTES: usize = 49;

// The words of eight bytes that hold such a size. The top one holds a single byte.
pub const VALUE_WORDS: usize = VALUE_BYTES / 8 + 1;

// A record of the checker's work space: a sign byte and a size.
pub const RECORD_BYTES: usize = 1 + VALUE_BYTES;

#[derive(Drop)]
pub struct Limits {
    pub number_bytes: usize,
    pub string_digits: usize,
    pub step_bytes: usize,
    pub plan_steps: usize,
    pub value_bytes: usize,
    pub record_bytes: usize,
}

// The limits that this build keeps.
pub fn current() -> Limits
    ensures { result ≡ documented }
{
    Limits {
        number_bytes: NUMBER_BYTES,
        string_digits: STRING_DIGITS,
        step_bytes: STEP_BYTES,
        plan_steps: PLAN_STEPS,
        value_bytes: VALUE_BYTES,
        record_bytes: RECORD_BYTES,
    }
}

// Why a call refuses. A case holds its place, unless that is always 0.
#[derive(Clone, Copy)]
pub enum Refusal {
    // Number longer than the limit.
    NumberTooLong,
    // Number is zero.
    NumberIsZero,
    // Method unknown, or width not allowed for it.
    MethodOrWidth,
    // A byte that is no digit, at the lowest such place.
    NotADigit(usize),
    // Digit string longer than the limit.
    StringTooLong,
    // Output needs this many bytes, more than lent.
    RoomTooSmall(usize),
    // Plan bytes not a whole number of steps, or too many; text of too many steps.
    PlanLength,
    // Work space too short for the plan.
    WorkSpaceTooShort,
    // Unknown operation, or a position that is not below the step's own, at this step.
    MalformedStep(usize),
    // The value at this step is zero.
    ValueIsZero(usize),
    // The value at this step is too large.
    ValueTooLarge(usize),
    // All steps sound, and the last value, at this position, is not the number.
    WrongEnd(usize),
    // Highest byte of the number is zero.
    HighestByteIsZero,
}

impl Refusal {
    // The number of a refusal (docs/RULES.md, 6.1).
    pub fn number(self) -> u8
        ensures { result ≡ refusal_number self }
    {
        match self {
            Refusal::NumberTooLong => 1,
            Refusal::NumberIsZero => 2,
            Refusal::MethodOrWidth => 3,
            Refusal::NotADigit(_) => 4,
            Refusal::StringTooLong => 5,
            Refusal::RoomTooSmall(_) => 6,
            Refusal::PlanLength => 7,
            Refusal::WorkSpaceTooShort => 8,
            Refusal::MalformedStep(_) => 9,
            Refusal::ValueIsZero(_) => 10,
            Refusal::ValueTooLarge(_) => 11,
            Refusal::WrongEnd(_) => 12,
            Refusal::HighestByteIsZero => 13,
        }
    }

    // Its place.
    pub fn place(self) -> usize
        ensures { result ≡ refusal_place self }
    {
        match self {
            Refusal::NumberTooLong => 0,
            Refusal::NumberIsZero => 0,
            Refusal::MethodOrWidth => 0,
            Refusal::NotADigit(place) => place,
            Refusal::StringTooLong => 0,
            Refusal::RoomTooSmall(needed) => needed,
            Refusal::PlanLength => 0,
            Refusal::WorkSpaceTooShort => 0,
            Refusal::MalformedStep(step) => step,
            Refusal::ValueIsZero(step) => step,
            Refusal::ValueTooLarge(step) => step,
            Refusal::WrongEnd(step) => step,
            Refusal::HighestByteIsZero => 0,
        }
    }
}

// How many steps of each kind a plan has.
#[derive(Clone, Copy)]
pub struct Counts {
    pub doublings: usize,
    pub additions: usize,
    pub subtractions: usize,
}

// What check answers of a plan that it accepts: its counts, and the bit length of the largest size among
// its values.
#[derive(Clone, Copy)]
pub struct Accepted {
    pub counts: Counts,
    pub largest_bits: usize,
}

// A width of a non-adjacent form that is allowed: the width of its digits.
#[derive(Clone, Copy)]
pub struct Width {
    pub bits: usize,
}

impl Model for Width {
    ghost use Rattle.std.specs.Prelude.{ℕ, ◌≤◌};
    ghost use Rattle.rules.specs.Limits.{least_width, largest_width};

    ghost Value = { ℕ };

    ghost view = { λ w. w.bits };

    ghost invariant = { λ w. (least_width ≤ w.bits) × (w.bits ≤ largest_width) };

    ghost inverse = { λ n. record { bits = n } };
}

impl Width {
    ghost use Rattle.std.specs.Prelude.{◌≡◌, ◌≤◌, ◌-◌, ◌^◌};
    ghost use Rattle.rules.specs.Limits.{least_width, largest_width};

    // The width of the canonical string, whose digits are 0, 1 and -1.
    pub const CANONICAL: Width = Width { bits: LEAST_WIDTH };

    // How many bits that is.
    pub fn bits(self) -> usize
        ensures value { result ≡ self }
        ensures range { (least_width ≤ result) × (result ≤ largest_width) }
    {
        self.bits
    }

    // The largest digit: sizes are below 2 to the power of the bits but one.
    pub fn largest_digit(self) -> u8
        ensures value { result ≡ 2 ^ (self - 1) - 1 }
        ensures bound { result ≤ 127 }
        ensures range { (least_width ≤ self) × (self ≤ largest_width) }
    {
        ((1 << (self.bits - 1)) - 1) as u8
    }
}
