// Numbers as people write them: decimal digits, most significant first.
#![tactic(auto)]

ghost use Rattle.std.specs.Prelude.{◌≡◌, ◌+◌, ◌*◌, ◌^◌, ◌<◌, ◌≤◌, not, length};
ghost use Rattle.std.specs.List.{position};
ghost use Rattle.integers.specs.Positional.{bytes_value, low_bytes};
ghost use Rattle.decimal.specs.Decimal.{is_digit, leading, decimal_value, parsed, parsed_buffer};

use integers::significant;

// Of a text that is no number: how many digits come before the first byte that is none. If that is
// the whole text, then it is empty, or has more digits than there is room for.
#[derive(Drop)]
pub struct NotDecimal {
    pub digits: usize,
}

// The most digits of a part: a byte times 10 to their power, and a carry below that power, are still
// a word.
const PART_DIGITS: usize = 16;

// The number of a part's digits, and 10 to the power of how many they are.
#[derive(Drop)]
struct Part {
    value: u64,
    power: u64,
}

// Whether a byte is a digit.
#[tactic(auto, using(crate::proofs::Digits::ascii_digit))]
pub fn is_digit(byte: u8) -> bool
    ensures { result ≡ is_digit byte }
{
    byte.is_ascii_digit()
}

// Where the first byte stands that is no digit.
fn first_other(text: &[u8]) -> Option<usize>
    ensures { result ≡ position (λ c. not (is_digit c)) text.now }
{
    text.iter().position(|byte| !is_digit(*byte))
}

fn part_of(digits: &[u8]) -> Part
    requires digits_value { leading digits.now ≡ length digits.now }
    requires digits_bound { length digits.now ≤ 16 }
    ensures value { (result.value ≡ decimal_value digits.now) × (result.value < result.power) }
    ensures power { (result.power ≡ 10 ^ length digits.now) × (result.power ≤ 10 ^ 16) }
{
    let mut value: u64 = 0;
    let mut power: u64 = 1;
    for digit in digits {
        value = value * 10 + u64::from(*digit - b'0');
        power *= 10;
    }
    Part { value, power }
}

// The number in the bytes, times a factor, plus an addend.
fn append(bytes: &mut [u8], factor: u64, addend: u64)
    requires factor_bound { factor ≤ 10 ^ 16 }
    requires addend_lt_factor { addend < factor }
    ensures { bytes.new ≡ low_bytes (length bytes.old) (bytes_value bytes.old * factor + addend) }
{
    let mut carry = addend;
    for byte in bytes.iter_mut() {
        let sum = u64::from(*byte) * factor + carry;
        *byte = (sum % 256) as u8;
        carry = sum / 256;
    }
}

// Writes as many low bytes of the number as there are. Each pass over them takes in as many digits
// as a word allows.
fn write(text: &[u8], bytes: &mut [u8])
    requires text_value { leading text.now ≡ length text.now }
    ensures { bytes.new ≡ low_bytes (length bytes.old) (decimal_value text.now) }
{
    bytes.fill(0);
    for digits in text.chunks(PART_DIGITS) {
        let part = part_of(digits);
        append(bytes, part.power, part.value);
    }
}

// Puts the number of a text into bytes, least significant first: the answer is how many they are.
pub fn parse(text: &[u8], bytes: &mut [u8]) -> Result<usize, NotDecimal>
    ensures answer { result ≡ parsed text.now (length bytes.old) }
    ensures buffer { bytes.new ≡ parsed_buffer text.now bytes.old }
{
    if let Some(digits) = first_other(text) {
        return Err(NotDecimal { digits });
    }
    let n = text.len() / 2 + text.len() % 2;
    if text.is_empty() || bytes.len() < n {
        return Err(NotDecimal { digits: text.len() });
    }
    write(text, &mut bytes[..n]);
    Ok(significant(&bytes[..n]))
}
