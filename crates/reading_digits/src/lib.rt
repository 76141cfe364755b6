// The sign and the size of a digit string's value, over the width of its digits.
//
// Each digit is raised by the largest of its width, so that none is below zero. The size is the
// difference between the sum of these and that of as many zeros, raised too, taken a byte at a time
// with a carry. The sign, known first, says which of the two is the larger.
#![tactic(auto)]

ghost use Rattle.std.specs.Prelude.{◌≡◌, ◌+◌, ◌*◌, ◌%◌, ◌<◌, ◌≤◌, nat_abs, length};
ghost use Rattle.integers.specs.Positional.{bytes_value};
ghost use Rattle.integers.specs.Signed.{sign_of};
ghost use Rattle.digit_strings.specs.Admission.{string_value, DigitString};
ghost use Rattle.reading_digits.specs.Sums.{SizesUpTo, raised_sum, raised_zeros, by_sign, carry_zero};

use rules::{STRING_DIGITS, Width};

// Enough bytes for the size of every digit string within the limit: one for every eight digits, and
// one for the carry above them. A load of eight bytes from that one on stays within.
pub const SIZE_BYTES: usize = STRING_DIGITS / 8 + 8;

// A carry of zero. Carries are raised by this, which is above every digit, so that none is below
// zero.
const CARRY_ZERO: u64 = 128;

// The digit of a byte, raised by the largest.
fn raised_digit(byte: u8, largest: u64) -> u64
    requires { largest < carry_zero }
    ensures { result ≡ (byte + largest) % 256 }
{
    (u64::from(byte) + largest) % 256
}

// The sign of a string, from the highest digit down. What the digits passed come to is kept, raised
// by the largest digit. Where its size is not below the largest digit, the digits below come to less,
// and it has the sign; at width 2 that is at the highest digit other than 0.
//
// That the string is one of digits stays a `requires`, and is no type as in clean: it is a fact of
// the string and a width that the caller chooses, and a type of both would be no plainer.
pub fn sign_of(digits: &[u8], width: Width) -> u8
    requires { DigitString width digits.now }
    ensures { result ≡ sign_of (string_value digits.now) }
{
    let largest = u64::from(width.largest_digit());
    let twice = 2 * largest;
    let mut value = largest;
    for digit in digits.iter().rev() {
        let next = 2 * value + raised_digit(*digit, largest);
        if next <= twice {
            return 1;
        }
        value = next - twice;
        if twice <= value {
            return 0;
        }
    }
    if value < largest { 1 } else { 0 }
}

// What digits come to, each raised by the largest, the lowest at place 0.
fn raised_sum(digits: &[u8], largest: u64) -> u64
    requires sizes_up_to { SizesUpTo largest digits.now }
    requires largest_lt_carry_zero { largest < carry_zero }
    requires digits_len_bound { length digits.now ≤ 8 }
    ensures { result ≡ raised_sum largest digits.now 0 (length digits.now) }
{
    let mut sum: u64 = 0;
    for digit in digits.iter().rev() {
        sum = sum * 2 + raised_digit(*digit, largest);
    }
    sum
}

// What these digits come to in size, with the carry into them: the next byte of the size, and 256
// times the carry out of them.
fn byte_of(digits: &[u8], largest: u64, sign: u8, carry: u64) -> u64
    requires sizes_up_to { SizesUpTo largest digits.now }
    requires largest_lt_carry_zero { largest < carry_zero }
    requires digits_len_bound { length digits.now ≤ 8 }
    requires carry_bound { carry < 256 }
    ensures small { result < 256 * 256 }
    ensures value { let n = length digits.now in result + by_sign sign (raised_zeros largest n) (raised_sum largest digits.now 0 n) ≡ carry + 255 * carry_zero + by_sign sign (raised_sum largest digits.now 0 n) (raised_zeros largest n) }
{
    let sum = raised_sum(digits, largest);
    let zeros = largest * ((1u64 << digits.len()) - 1);
    if sign == 0 {
        carry + 255 * CARRY_ZERO + sum - zeros
    } else {
        carry + 255 * CARRY_ZERO + zeros - sum
    }
}

// The size of a string. With the right sign the last carry is not below zero, and is the highest
// byte.
pub fn size_of(digits: &[u8], width: Width, sign: u8) -> [u8; SIZE_BYTES]
    requires digit_string { DigitString width digits.now }
    requires sign_value { sign ≡ sign_of (string_value digits.now) }
    ensures { bytes_value result ≡ nat_abs (string_value digits.now) }
{
    let largest = u64::from(width.largest_digit());
    let mut size = [0u8; SIZE_BYTES];
    let mut carry = CARRY_ZERO;
    let whole = digits.len() / 8;
    for k in 0..whole {
        let byte = byte_of(&digits[8 * k..8 * k + 8], largest, sign, carry);
        size[k] = (byte % 256) as u8;
        carry = byte / 256;
    }
    let byte = byte_of(&digits[8 * whole..], largest, sign, carry);
    size[whole] = (byte % 256) as u8;
    size[whole + 1] = (byte / 256 - CARRY_ZERO) as u8;
    size
}
