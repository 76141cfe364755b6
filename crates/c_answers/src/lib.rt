// The answers as C takes them: structs of numbers. A refusal is its number and place, and all else
// is 0; if a call is not refused, both are 0.
#![tactic(auto)]

ghost use Rattle.std.specs.Prelude.{◌≡◌};
ghost use Rattle.c_answers.specs.Answers.{started_fields, written_fields, read_fields, counted_fields, checked_fields, limit_fields, hexadecimal_fields, decimal_fields};

use decimal::NotDecimal;
use reading::ReadBack;
use rules::Refusal;

// The refusal alone, as the start of taking answers it.
#[repr(C)]
#[derive(Drop)]
pub struct Started {
    pub refusal: usize,
    pub place: usize,
}

// How many bytes were written.
#[repr(C)]
#[derive(Drop)]
pub struct Length {
    pub refusal: usize,
    pub place: usize,
    pub length: usize,
}

// The sign, 1 below zero, and how many bytes of size were written.
#[repr(C)]
#[derive(Drop)]
pub struct Value {
    pub refusal: usize,
    pub place: usize,
    pub sign: usize,
    pub length: usize,
}

// How many steps of each kind.
#[repr(C)]
#[derive(Drop)]
pub struct Counts {
    pub refusal: usize,
    pub place: usize,
    pub doublings: usize,
    pub additions: usize,
    pub subtractions: usize,
}

// What an accepted plan has: how many steps of each kind, and how many bits its largest size has.
#[repr(C)]
#[derive(Drop)]
pub struct Accepted {
    pub refusal: usize,
    pub place: usize,
    pub doublings: usize,
    pub additions: usize,
    pub subtractions: usize,
    pub largest_bits: usize,
}

// Whether a text is a number, 1 if it is: then how many bytes it has; if not, how many digits come
// before the first byte that is none, where the reader tells.
#[repr(C)]
#[derive(Drop)]
pub struct Parsed {
    pub is_number: usize,
    pub place: usize,
    pub length: usize,
}

// The limits that the library keeps.
#[repr(C)]
#[derive(Drop)]
pub struct Limits {
    pub number_bytes: usize,
    pub string_digits: usize,
    pub step_bytes: usize,
    pub plan_steps: usize,
    pub value_bytes: usize,
    pub record_bytes: usize,
}

// What stands beside a refusal.
const NO_COUNTS: rules::Counts = rules::Counts {
    doublings: 0,
    additions: 0,
    subtractions: 0,
};

// The refusal of any answer. Those below take it from here.
impl<T: Drop> From<Result<T, Refusal>> for Started {
    ghost from_gives = { λ answer fields. fields ≡ started_fields answer };

    fn from(answer: Result<T, Refusal>) -> Self {
        match answer {
            Ok(_) => Started {
                refusal: 0,
                place: 0,
            },
            Err(refusal) => Started {
                refusal: usize::from(refusal.number()),
                place: refusal.place(),
            },
        }
    }
}

impl From<Result<usize, Refusal>> for Length {
    ghost from_gives = { λ answer fields. fields ≡ written_fields answer };

    fn from(answer: Result<usize, Refusal>) -> Self {
        let Started { refusal, place } = Started::from(answer);
        Length {
            refusal,
            place,
            length: answer.unwrap_or(0),
        }
    }
}

impl From<Result<ReadBack, Refusal>> for Value {
    ghost from_gives = { λ answer fields. fields ≡ read_fields answer };

    fn from(answer: Result<ReadBack, Refusal>) -> Self {
        let Started { refusal, place } = Started::from(answer);
        let value = answer.unwrap_or(ReadBack { sign: 0, length: 0 });
        Value {
            refusal,
            place,
            sign: usize::from(value.sign),
            length: value.length,
        }
    }
}

impl From<Result<rules::Counts, Refusal>> for Counts {
    ghost from_gives = { λ answer fields. fields ≡ counted_fields answer };

    fn from(answer: Result<rules::Counts, Refusal>) -> Self {
        let Started { refusal, place } = Started::from(answer);
        let counts = answer.unwrap_or(NO_COUNTS);
        Counts {
            refusal,
            place,
            doublings: counts.doublings,
            additions: counts.additions,
            subtractions: counts.subtractions,
        }
    }
}

impl From<Result<rules::Accepted, Refusal>> for Accepted {
    ghost from_gives = { λ answer fields. fields ≡ checked_fields answer };

    fn from(answer: Result<rules::Accepted, Refusal>) -> Self {
        let Started { refusal, place } = Started::from(answer);
        let accepted = answer.unwrap_or(rules::Accepted {
            counts: NO_COUNTS,
            largest_bits: 0,
        });
        Accepted {
            refusal,
            place,
            doublings: accepted.counts.doublings,
            additions: accepted.counts.additions,
            subtractions: accepted.counts.subtractions,
            largest_bits: accepted.largest_bits,
        }
    }
}

impl From<Option<usize>> for Parsed {
    ghost from_gives = { λ answer fields. fields ≡ hexadecimal_fields answer };

    fn from(answer: Option<usize>) -> Self {
        match answer {
            Some(length) => Parsed {
                is_number: 1,
                place: 0,
                length,
            },
            None => Parsed {
                is_number: 0,
                place: 0,
                length: 0,
            },
        }
    }
}

impl From<Result<usize, NotDecimal>> for Parsed {
    ghost from_gives = { λ answer fields. fields ≡ decimal_fields answer };

    fn from(answer: Result<usize, NotDecimal>) -> Self {
        match answer {
            Ok(length) => Parsed {
                is_number: 1,
                place: 0,
                length,
            },
            Err(NotDecimal { digits }) => Parsed {
                is_number: 0,
                place: digits,
                length: 0,
            },
        }
    }
}

impl From<rules::Limits> for Limits {
    ghost from_gives = { λ limits fields. fields ≡ limit_fields limits };

    fn from(limits: rules::Limits) -> Self {
        Limits {
            number_bytes: limits.number_bytes,
            string_digits: limits.string_digits,
            step_bytes: limits.step_bytes,
            plan_steps: limits.plan_steps,
            value_bytes: limits.value_bytes,
            record_bytes: limits.record_bytes,
        }
    }
}
