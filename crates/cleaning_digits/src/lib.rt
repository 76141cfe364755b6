// The canonical digits of a digit string from the low end, with a carry of -1, 0 or 1. At a place
// the sum of digit and carry is kept, plus 2; with the digit above it tells the canonical digit and
// the next carry.
#![tactic(auto)]

ghost use Rattle.std.specs.Prelude.{◌≡◌, cond, ◌++◌, ◌+◌, ◌%◌, ◌<◌, ◌≤◌, eqb, IfSome, length, drop};
ghost use Rattle.rules.specs.Limits.{string_digits};
ghost use Rattle.integers.specs.Positional.{Significant};
ghost use Rattle.integers.specs.Tabulate.{tabulate};
ghost use Rattle.signed_digits.specs.Naf.{rest, canonical, canonical_width};
ghost use Rattle.digit_strings.specs.Admission.{DigitString, string_value};
ghost use Rattle.digit_strings.specs.Places.{place_byte};
ghost use Rattle.cleaning_digits.specs.Sums.{raised_at, sum_at, Highest};

use digit_strings::PlainDigits;
use integers::{byte_at, significant};

// The length is sought first from this many places below the top digit: few carries come from
// further down.
const NEAR: usize = 16;

// The digit at a place, plus 1; above the string the digit is 0.
fn raised_at(digits: &PlainDigits, i: usize) -> u64
    ensures value { (result ≡ raised_at digits.now i) × (result ≤ 2) }
    ensures digit_string { DigitString canonical_width digits.now }
{
    (byte_at(digits.bytes(), i) + 1) % 256
}

// What is left of n once its lowest canonical digit is taken off.
fn rest_of(n: u64) -> u64
    requires { n ≤ 8 }
    ensures { (result ≡ rest canonical_width n) × (result ≤ 4) }
{
    (n + n / 2 % 2) / 2
}

// The place above an odd sum, where the canonical digit is not 0; else what was found below.
fn top(sum: u64, above: usize, below: usize) -> usize
    ensures { result ≡ cond (eqb (sum % 2) 0) below above }
{
    if sum % 2 == 0 { below } else { above }
}

// The place above the highest canonical digit other than 0, from `from` to n; 0 if there is none.
fn highest(digits: &PlainDigits, from: usize, n: usize, start: u64) -> usize
    requires from_le_n { from ≤ n }
    requires n_bound { n ≤ string_digits }
    requires start_value { start ≡ sum_at digits.now from }
    requires start_bound { start ≤ 4 }
    ensures { Highest digits.now from (n + 1) result }
{
    let mut sum = start;
    let mut length = 0;
    for i in from..=n {
        length = top(sum, i + 1, length);
        sum = rest_of(sum + 2 * raised_at(digits, i + 1));
    }
    length
}

// The length by the digits from `from` on alone, where each carry into that place comes to the same
// and a canonical digit from where it does is not 0. The sum lies from `low` to `high`.
fn by_top(digits: &PlainDigits, from: usize, n: usize) -> Option<usize>
    requires from_le_n { from ≤ n }
    requires significant { Significant digits.now n }
    ensures { IfSome result (λ found. found ≡ length (canonical (string_value digits.now))) }
{
    let mut i = from;
    let mut low = raised_at(digits, i);
    let mut high = low + 2;
    // How many places up the two differ, the digits decide.
    while low < high {
        if n <= i {
            return None;
        }
        i += 1;
        let above = 2 * raised_at(digits, i);
        low = rest_of(low + above);
        high = rest_of(high + above);
    }
    match highest(digits, i, n, low) {
        0 => None,
        length => Some(length),
    }
}

// How many digits the canonical string has.
pub fn count(digits: &PlainDigits) -> usize
    ensures { result ≡ length (canonical (string_value digits.now)) }
{
    let n = significant(digits.bytes());
    if NEAR < n {
        if let Some(length) = by_top(digits, n - NEAR, n) {
            return length;
        }
    }
    highest(digits, 0, n, raised_at(digits, 0) + 1)
}

// Writes the first `count` canonical digits.
pub fn write(digits: &PlainDigits, out: &mut [u8], count: usize)
    requires { count ≤ length out.old }
    ensures { out.new ≡ tabulate (place_byte (canonical (string_value digits.now))) count ++ drop count out.old }
{
    let mut sum = raised_at(digits, 0) + 1;
    for i in 0..count {
        let pair = sum + 2 * raised_at(digits, i + 1);
        sum = rest_of(pair);
        out[i] = ((256 + pair - 2 * sum) % 256) as u8;
    }
}
