// Numbers as people write them: hexadecimal digits, most significant first.
#![tactic(auto)]

ghost use Rattle.std.specs.Prelude.{◌≡◌, true, ◌++◌, ◌≤◌, ◌<◌, leb, length, drop};
ghost use Rattle.integers.specs.Tabulate.{tabulate};
ghost use Rattle.hexadecimal.specs.Hex.{digit_value, place_value, byte_at, byte_count, is_hex, is_prefix, parsed, parsed_buffer, without_prefix};

// Whether a byte is a hexadecimal digit. No branch that digits decide: std tests three ranges.
fn is_digit(byte: u8) -> bool
    ensures { result ≡ leb (digit_value byte) 15 }
{
    byte.is_ascii_hexdigit()
}

// Whether all bytes are hexadecimal digits. It tests each, so that no digit decides a branch.
fn is_hex(text: &[u8]) -> bool
    ensures { result ≡ is_hex text.now }
{
    let mut all = true;
    for byte in text {
        all &= is_digit(*byte);
    }
    all
}

// The value of the digit at a place, from the last on: its low half, and nine more for a letter.
fn digit_at(text: &[u8], place: usize) -> u8
    requires text_value { is_hex text.now ≡ true }
    requires place_in_bounds { place < length text.now }
    ensures { (result ≡ place_value text.now place) × (result < 16) }
{
    let digit = text[text.len() - 1 - place];
    digit % 16 + digit / 64 * 9
}

// Writes the number, two digits a byte; of an odd number of digits the first has a byte of its own.
#[tactic(auto, using(crate::proofs::Value::odd_end))]
fn write(text: &[u8], bytes: &mut [u8])
    requires text_value { is_hex text.now ≡ true }
    requires text_in_bounds { byte_count text.now ≤ length bytes.old }
    ensures { bytes.new ≡ tabulate (byte_at text.now) (byte_count text.now) ++ drop (byte_count text.now) bytes.old }
{
    let pairs = text.len() / 2;
    for k in 0..pairs {
        let low = digit_at(text, 2 * k);
        let high = digit_at(text, 2 * k + 1);
        bytes[k] = low + 16 * high;
    }
    if text.len() % 2 == 1 {
        bytes[pairs] = digit_at(text, 2 * pairs);
    }
}

// The word behind the 0x that it may have in front.
#[tactic(auto, unfolding(crate::specs::Hex::without_prefix, crate::specs::Hex::is_prefix))]
fn without_prefix(word: &[u8]) -> &[u8]
    ensures { result.now ≡ without_prefix word.now }
{
    match word {
        [b'0', b'x' | b'X', digits @ ..] => digits,
        _ => word,
    }
}

// Puts the number of a word into bytes, least significant first: the answer is how many they are.
pub fn parse(word: &[u8], bytes: &mut [u8]) -> Option<usize>
    ensures answer { result ≡ parsed (without_prefix word.now) (length bytes.old) }
    ensures buffer { bytes.new ≡ parsed_buffer (without_prefix word.now) bytes.old }
{
    let text = without_prefix(word);
    let n = text.len() / 2 + text.len() % 2;
    if text.is_empty() || bytes.len() < n || !is_hex(text) {
        return None;
    }
    write(text, bytes);
    Some(n)
}
