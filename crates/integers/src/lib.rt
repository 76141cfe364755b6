// Numbers as bytes, the least significant first: bytes, bits and words of them.
#![tactic(auto)]

ghost use Rattle.std.specs.Prelude.{◌≡◌, ◌+◌, ◌*◌, ◌/◌, ◌%◌, ◌^◌, ◌<◌, ◌≤◌, length, take, drop, get_or};
ghost use Rattle.std.specs.Int.Count;
ghost use Rattle.rules.specs.Limits.{number_bytes};
ghost use Rattle.integers.specs.Bits.{bit, bit_length};
ghost use Rattle.integers.specs.Positional.{bytes_value, words_value, Unpadded, Significant};

use rules::NUMBER_WORDS;

// The byte at a place: 0 above the number.
pub fn byte_at(number: &[u8], place: usize) -> u64
    ensures { (result ≡ get_or number.now place 0) × (result < 256) }
{
    match number.get(place) {
        Some(byte) => u64::from(*byte),
        None => 0,
    }
}

// How many bytes the number has without its high zero bytes.
pub fn significant(number: &[u8]) -> usize
    ensures { Significant number.now result }
{
    match number.iter().rposition(|byte| *byte != 0) {
        Some(top) => top + 1,
        None => 0,
    }
}

// The bit at a place.
pub fn bit_at(number: &[u8], place: usize) -> u64
    ensures { result ≡ bit (bytes_value number.now) place }
{
    (byte_at(number, place / 8) >> (place % 8)) % 2
}

// 2 to the power of n.
pub fn power_of_two(n: usize) -> u64
    requires { n < 64 }
    ensures { result ≡ 2 ^ n }
{
    1 << n
}

// The value of the `count` bits from a place on, which may cross into the next byte.
pub fn bits_at(number: &[u8], place: usize, count: usize) -> u64
    requires { count ≤ 8 }
    ensures { result ≡ bytes_value number.now / 2 ^ place % 2 ^ count }
{
    let at = place / 8;
    let bytes = byte_at(number, at) + 256 * byte_at(number, at + 1);
    (bytes >> (place % 8)) % power_of_two(count)
}

// How many bits a number has. Its highest byte is not zero, so the top bit is in that byte.
pub fn bit_length(number: &[u8]) -> usize
    requires number_len_bound { length number.now ≤ number_bytes }
    requires unpadded { Unpadded number.now }
    ensures { result ≡ bit_length (bytes_value number.now) }
{
    let n = number.len();
    if n == 0 {
        return 0;
    }
    8 * (n - 1) + (64 - byte_at(number, n - 1).leading_zeros() as usize)
}

// How many bits of a number are 1: those of its whole words, and those of the bytes above them.
pub fn ones(number: &[u8]) -> usize
    requires { length number.now ≤ number_bytes }
    ensures { result ≡ Count.ones (bytes_value number.now) }
{
    let words = number.len() / 8;
    let mut total = 0;
    for k in 0..words {
        total += whole_word_at(number, 8 * k).count_ones() as usize;
    }
    total + word_of(&number[8 * words..]).count_ones() as usize
}

// The value of at most eight bytes. Eight are one load.
fn word_of(bytes: &[u8]) -> u64
    requires { length bytes.now ≤ 8 }
    ensures { result ≡ bytes_value bytes.now }
{
    if let Some(word) = bytes.as_array() {
        return u64::from_le_bytes(*word);
    }
    let mut word = 0;
    for byte in bytes.iter().rev() {
        word = 256 * word + u64::from(*byte);
    }
    word
}

// The value of the eight bytes from `from` on.
pub fn whole_word_at(bytes: &[u8], from: usize) -> u64
    requires { from + 8 ≤ length bytes.now }
    ensures { result ≡ bytes_value (take 8 (drop from bytes.now)) }
{
    word_of(&bytes[from..from + 8])
}

// The value of the eight bytes from `from` on, or of those that there are.
fn word_at(bytes: &[u8], from: usize) -> u64
    ensures { result ≡ bytes_value (take 8 (drop from bytes.now)) }
{
    if bytes.len() <= from {
        return 0;
    }
    if 8 <= bytes.len() - from {
        return whole_word_at(bytes, from);
    }
    word_of(&bytes[from..])
}

// The words of a number. Bytes above the limit are left out.
pub fn words_of(number: &[u8]) -> [u64; NUMBER_WORDS]
    ensures { words_value result ≡ bytes_value (take number_bytes number.now) }
{
    let mut words = [0u64; NUMBER_WORDS];
    for (k, word) in words.iter_mut().enumerate() {
        *word = word_at(number, 8 * k);
    }
    words
}
