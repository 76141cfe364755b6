// Recoding a number into its modified form: the canonical string, except that leading digits 1 0 -1
// become 1 1.
#![tactic(auto)]

ghost use Rattle.std.specs.Prelude.{◌≡◌, length};
ghost use Rattle.recoding_modified.specs.RecodeModified.{recode_modified_answer, recode_modified_buffer};

use modified_digits::{shape_of, write_form};
use numbers::Number;
use rules::Refusal;
use triples::Tripled;

// Writes the modified form of a number, lowest digit first, one byte a digit.
#[tactic(auto, using(rules::proofs::Fitted::too_small, rules::proofs::Fitted::fits, crate::proofs::Outcomes::length_recoding), unfolding(crate::specs::RecodeModified::modified_recoding))]
pub fn recode_modified(number: &[u8], out: &mut [u8]) -> Result<usize, Refusal>
    ensures answer { result ≡ recode_modified_answer number.now (length out.old) }
    ensures buffer { out.new ≡ recode_modified_buffer number.now out.old }
{
    let number = Number::new(number)?;
    let tripled = Tripled::new(number.words());
    let form = shape_of(&number, tripled.triple());
    let length = form.length;
    if out.len() < length {
        return Err(Refusal::RoomTooSmall(length));
    }
    write_form(tripled.words(), tripled.triple(), out, form);
    Ok(length)
}
