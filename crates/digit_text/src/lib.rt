// Digit strings as people write them: a word for each digit, the most significant first.
#![tactic(auto)]

ghost use Rattle.std.specs.Prelude.{◌≡◌, length};
ghost use Rattle.digit_text.specs.Digits.{word_digit, digits_answer, digits_buffer};

use rules::Refusal;
use text_words::{TextWords, word_count};

// The byte of a word that is no digit. It is none either, so the calls that take digits refuse it at
// its place.
const NO_DIGIT: u8 = 2;

// The byte of the digit that a word is.
#[tactic(auto, using(crate::proofs::Comparing::other_length, crate::proofs::Comparing::other_byte, crate::proofs::Comparing::other_at), unfolding(crate::specs::Digits::word_digit, crate::specs::Digits::same))]
fn digit_of(word: &[u8]) -> u8
    ensures { result ≡ word_digit word.now }
{
    match word {
        b"0" => 0,
        b"1" => 1,
        b"-1" => 255,
        _ => NO_DIGIT,
    }
}

// Writes the digits of a text, least significant first: the first word's digit goes to the last place.
pub fn read_digits(text: &[u8], out: &mut [u8]) -> Result<usize, Refusal>
    ensures answer { result ≡ digits_answer text.now (length out.old) }
    ensures buffer { out.new ≡ digits_buffer text.now out.old }
{
    let n = word_count(text);
    if out.len() < n {
        return Err(Refusal::RoomTooSmall(n));
    }
    for (place, word) in (0..n).rev().zip(TextWords(text)) {
        out[place] = digit_of(word);
    }
    Ok(n)
}
