// Recoding a number by words: the same as recode in every answer and byte.
#![tactic(auto)]

ghost use Rattle.std.specs.Prelude.{◌≡◌, length};
ghost use Rattle.recoding.specs.Recode.{recode_answer, recode_buffer};

use numbers::Number;
use recoding_words_digits::write;
use rules::Refusal;
use triples::Tripled;

// Writes the canonical string of a number, lowest digit first, one byte a digit.
#[tactic(auto, using(rules::proofs::Fitted::too_small, rules::proofs::Fitted::fits, recoding::proofs::Outcomes::length_recoding, recoding::proofs::Outcomes::recoding_written))]
pub fn recode_words(number: &[u8], out: &mut [u8]) -> Result<usize, Refusal>
    ensures answer { result ≡ recode_answer number.now (length out.old) }
    ensures buffer { out.new ≡ recode_buffer number.now out.old }
{
    let number = Number::new(number)?;
    let tripled = Tripled::new(number.words());
    let length = tripled.count(&number);
    if out.len() < length {
        return Err(Refusal::RoomTooSmall(length));
    }
    write(tripled.words(), tripled.triple(), out, length);
    Ok(length)
}
