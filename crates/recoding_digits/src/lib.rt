// The canonical digits of a number by the bits of three times the number: the digit at
// place i is the bit of 3 e at i + 1, less that of e. So no digit waits for another, and
// the work is linear in the number's bytes.
#![tactic(auto)]

ghost use Rattle.std.specs.Prelude.{◌≡◌, ◌++◌, ◌+◌, ◌*◌, ◌≤◌, pos, length, take, drop};
ghost use Rattle.integers.specs.Bits.{bit};
ghost use Rattle.integers.specs.Positional.{bytes_value};
ghost use Rattle.integers.specs.Tabulate.{tabulate};
ghost use Rattle.signed_digits.specs.Naf.{canonical};
ghost use Rattle.digit_strings.specs.Places.{place_byte};
ghost use Rattle.recoding_digits.specs.Internal.{triple_carry, difference};

use integers::byte_at;
use numbers::Number;

// What three times a number carries into the byte above its own.
fn carry_above(low: &[u8]) -> u64
    ensures { result ≡ triple_carry (bytes_value low.now) (length low.now) }
{
    let mut carry: u64 = 0;
    for byte in low {
        carry = (3 * u64::from(*byte) + carry) / 256;
    }
    carry
}

// How many digits the canonical string has: one fewer than the bits of three times the number.
// The number's highest byte is not zero, so the top bit of three times it comes from there.
pub fn count(number: &Number) -> usize
    ensures { result ≡ length (canonical (pos (bytes_value number.now))) }
{
    let bytes = number.bytes();
    let Some((highest, low)) = bytes.split_last() else {
        return 0;
    };
    let top = 3 * u64::from(*highest) + carry_above(low);
    8 * low.len() + (63 - top.leading_zeros() as usize)
}

// The eight lowest bits, one to a byte, four in each half of the word. Copies of four
// bits, each seven places above the one before, do not meet, and have bit j at place 8 j.
fn spread(word: u64) -> u64
    ensures { result ≡ bytes_value (tabulate (bit word) 8) }
{
    let halves = word % 16 + 0x1_0000_0000 * (word / 16 % 16);
    (0x20_4081 * halves) & 0x0101_0101_0101_0101
}

// The bytes of the differences of the eight lowest bits of two words. With 128 in each
// byte none borrows from the next.
fn differences(more: u64, less: u64) -> u64
    ensures { result ≡ bytes_value (tabulate (difference more less) 8) }
{
    (spread(more) + 0x8080_8080_8080_8080 - spread(less)) ^ 0x8080_8080_8080_8080
}

// Writes the differences of as many of the lowest bits of two words as there is room for.
fn write_differences(out: &mut [u8], more: u64, less: u64)
    requires { length out.old ≤ 8 }
    ensures { out.new ≡ tabulate (difference more less) (length out.old) }
{
    let bytes = differences(more, less);
    for (j, byte) in out.iter_mut().enumerate() {
        *byte = ((bytes >> (8 * j)) % 256) as u8;
    }
}

// Writes the `count` lowest digits of byte k; answers what is carried into the next byte.
fn write_byte(number: &[u8], out: &mut [u8], k: usize, count: usize, carry: u64) -> u64
    requires count_bound { count ≤ 8 }
    requires count_in_bounds { 8 * k + count ≤ length out.old }
    requires carry_value { carry ≡ triple_carry (bytes_value number.now) k }
    ensures carried { result ≡ triple_carry (bytes_value number.now) (k + 1) }
    ensures buffer { out.new ≡ take (8 * k) out.old ++ (tabulate (λ j. place_byte (canonical (pos (bytes_value number.now))) (8 * k + j)) count ++ drop (8 * k + count) out.old) }
{
    let byte = byte_at(number, k);
    let next = byte_at(number, k + 1);
    let triple = 3 * byte + carry;
    write_differences(
        &mut out[8 * k..8 * k + count],
        triple / 2 + 128 * next,
        byte / 2 + 128 * next,
    );
    triple / 256
}

// Writes the first `count` canonical digits.
pub fn write(number: &[u8], out: &mut [u8], count: usize)
    requires { count ≤ length out.old }
    ensures { out.new ≡ tabulate (place_byte (canonical (pos (bytes_value number.now)))) count ++ drop count out.old }
{
    let whole = count / 8;
    let mut carry: u64 = 0;
    for k in 0..whole {
        carry = write_byte(number, out, k, 8, carry);
    }
    write_byte(number, out, whole, count % 8, carry);
}
