// Reading a digit string back: the sign and the size of its value.
#![tactic(auto)]

ghost use Rattle.std.specs.Prelude.{◌≡◌, length};
ghost use Rattle.reading.specs.ReadBack.{read_answer_of, read_buffer_of, read_back_answer, read_back_buffer};

use digit_strings::string_verdict;
use integers::significant;
use output::put;
use reading_digits::{sign_of, size_of};
use rules::{Refusal, Width};

// What read back answers: the sign, 1 below zero, and how many bytes of size it wrote.
#[derive(Clone, Copy)]
pub struct ReadBack {
    pub sign: u8,
    pub length: usize,
}

// Writes the size of a digit string's value, with no high zero byte, least significant first;
// answers the sign and how many bytes. The digits are of this width.
pub fn read_of_width(digits: &[u8], width: Width, out: &mut [u8]) -> Result<ReadBack, Refusal>
    ensures answer { result ≡ read_answer_of width digits.now (length out.old) }
    ensures buffer { out.new ≡ read_buffer_of width digits.now out.old }
{
    string_verdict(digits, width)?;
    let digits = &digits[..significant(digits)];
    let sign = sign_of(digits, width);
    let size = size_of(digits, width, sign);
    let bytes = significant(&size);
    let length = put(&size[..bytes], out)?;
    Ok(ReadBack { sign, length })
}

// The same of a string of the digits 0, 1 and -1.
pub fn read_back(digits: &[u8], out: &mut [u8]) -> Result<ReadBack, Refusal>
    ensures answer { result ≡ read_back_answer digits.now (length out.old) }
    ensures buffer { out.new ≡ read_back_buffer digits.now out.old }
{
    read_of_width(digits, Width::CANONICAL, out)
}
