// A work space before the first step, after each, and after the last: record 0, the size recorded last,
// and the last value beside the number.
#![tactic(auto)]

ghost use Rattle.std.specs.Prelude.{◌≡◌, ◌+◌, ◌*◌, ◌<◌, ◌≤◌, pos, length};
ghost use Rattle.rules.specs.Limits.{value_words, record_bytes};
ghost use Rattle.integers.specs.Positional.{bytes_value};
ghost use Rattle.integers.specs.Signed.{is_same};
ghost use Rattle.chain_values.specs.Value.{integer_of};
ghost use Rattle.chains.specs.Values.{start};
ghost use Rattle.records.specs.Recording.{Recording};
ghost use Rattle.work_space.specs.Bits.{IsGrown};
ghost use Rattle.work_space.specs.End.{EndsAt};

use chain_values::{Value, one};
use integers::words_of;
use numbers::PositiveNumber;
use records::{load, size_word, store};
use rules::{NUMBER_WORDS, RECORD_BYTES};

// Position 0 holds 1.
pub fn begin(space: &mut [u8])
    requires { record_bytes ≤ length space.old }
    ensures { Recording space.old space.new start }
{
    store(space, 0, 0, one());
}

// `bits`, and one more if the size at position i has a 1 just above them.
pub fn grown_bits(space: &[u8], i: usize, bits: usize) -> usize
    requires record_bytes_in_bounds { record_bytes * i + record_bytes ≤ length space.now }
    requires bits_bound { bits < 64 * value_words }
    ensures { IsGrown i bits space.now result }
{
    let word = size_word(space, RECORD_BYTES * i + 1, bits / 64);
    bits + ((word >> (bits % 64)) % 2) as usize
}

// Whether a value is the number.
fn is_number(v: Value, number: &PositiveNumber) -> bool
    ensures { result ≡ is_same (integer_of v) (pos (bytes_value number.now)) }
{
    let Value { words, negative } = v;
    let own = words_of(number.bytes());
    if negative {
        return false;
    }
    words.starts_with(&own) && words[NUMBER_WORDS] == 0
}

// Whether the value after this many steps is the number.
pub fn ends_at(number: &PositiveNumber, space: &[u8], steps: usize) -> bool
    requires { record_bytes * steps + record_bytes ≤ length space.now }
    ensures { EndsAt number.now steps space.now result }
{
    is_number(load(space, RECORD_BYTES * steps), number)
}
