// The digits of the non-adjacent form of width w of a number, from the low end. At a place what is left
// is the number from there on, and a carry of 0 or 1. Its trailing zeros are zero digits; the w bits
// above them, which are odd, tell a digit and the next carry, and w - 1 zero digits follow.
#![tactic(auto)]

ghost use Rattle.std.specs.Prelude.{◌≡◌, ◌+◌, ◌*◌, ◌/◌, ◌%◌, ◌^◌, ◌<◌, ◌≤◌, pos, length};
ghost use Rattle.rules.specs.Limits.{least_width, largest_width};
ghost use Rattle.integers.specs.Positional.{bytes_value};
ghost use Rattle.signed_digits.specs.Bytes.{digit_byte};
ghost use Rattle.wide_digits.specs.Form.{Blank, turned, FormIn};
ghost use Rattle.wide_digits.specs.Internal.{left_at, nearest};

use integers::{power_of_two, whole_word_at};
use numbers::Number;
use rules::{LARGEST_WIDTH, NUMBER_BYTES, Width};

// Of eight bytes up to seven bits stand below a place.
const LOAD_BITS: usize = 57;

// Where this many places of a load hold zeros, they are passed: a digit of the largest width above
// them could reach past the load. One place is given away.
const BLANK_PLACES: usize = LOAD_BITS - LARGEST_WIDTH;

// What is left of a number at a place, by the bits that one load tells.
fn left_at(bytes: &[u8], place: usize, carry: u64) -> u64
    requires place_in_bounds { place / 8 + 8 ≤ length bytes.now }
    requires carry_bound { carry ≤ 1 }
    ensures { result ≡ left_at (bytes_value bytes.now) place carry }
{
    (whole_word_at(bytes, place / 8) >> (place % 8)) % (1 << LOAD_BITS) + carry
}

// The byte of the digit that an odd remainder tells, or of its opposite.
fn digit_byte(remainder: u64, half: u64, sign: u8) -> u8
    requires le_half { (1 ≤ half) × (half ≤ 128) }
    requires remainder_value { remainder % 2 ≡ 1 }
    requires remainder_bound { remainder < 2 * half }
    ensures { result ≡ digit_byte (turned sign (nearest half remainder)) }
{
    let carried = remainder / half * (2 * half);
    if sign == 0 {
        ((256 + remainder - carried) % 256) as u8
    } else {
        ((256 + carried - remainder) % 256) as u8
    }
}

// Writes the digits of a number of at most `bits` bits, or those of its opposite, into a buffer of
// zeros; answers how many there are.
pub fn write(bytes: &[u8], bits: usize, width: Width, sign: u8, out: &mut [u8]) -> usize
    requires bytes_bound { bytes_value bytes.now ≤ 2 ^ bits }
    requires bits_in_bounds { bits / 8 + 8 ≤ length bytes.now }
    requires bits_in_bounds_2 { bits < length out.old }
    requires blank { Blank out.old }
    ensures form { FormIn width (turned sign (pos (bytes_value bytes.now))) out.new result }
    ensures range { (least_width ≤ width) × (width ≤ largest_width) }
{
    let width = width.bits();
    let half = power_of_two(width - 1);
    let mut place = 0;
    let mut carry: u64 = 0;
    let mut length = 0;
    // How far a turn goes up, the number decides.
    while place <= bits {
        let left = left_at(bytes, place, carry);
        if left % (1 << BLANK_PLACES) == 0 {
            place += BLANK_PLACES;
            continue;
        }
        let zeros = left.trailing_zeros() as usize;
        let remainder = (left >> zeros) % (2 * half);
        place += zeros;
        out[place] = digit_byte(remainder, half, sign);
        carry = remainder / half;
        length = place + 1;
        place += width;
    }
    length
}

// Room for the digits of every number: one more than bits.
pub const DIGIT_ROOM: usize = 8 * NUMBER_BYTES + 1;

// A number, with as many bytes above it as a load takes.
const PADDED_BYTES: usize = NUMBER_BYTES + 8;

// Writes the digits of a number into a buffer of zeros; answers how many there are.
pub fn recoded(number: &Number, width: Width, out: &mut [u8]) -> usize
    requires number_in_bounds { 8 * length number.now < length out.old }
    requires blank { Blank out.old }
    ensures form { FormIn width (pos (bytes_value number.now)) out.new result }
    ensures range { (least_width ≤ width) × (width ≤ largest_width) }
{
    let number = number.bytes();
    let mut padded = [0u8; PADDED_BYTES];
    padded[..number.len()].copy_from_slice(number);
    write(&padded, 8 * number.len(), width, 0, out)
}
