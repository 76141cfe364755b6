// What holds across calls: theorems in proofs/. Where two calls are the same for every input, a function
// makes both, and its statement says so.
#![tactic(auto)]

ghost use Rattle.std.specs.Prelude.{◌≡◌, length};
ghost use Rattle.recoding.specs.Recode.{recode_answer, recode_buffer};

use recoding::recode;
use recoding_words::recode_words;
use rules::Refusal;

// Recodes a number both ways, into buffers that hold the same bytes: the answers are the same, refusals
// included, and so is every byte.
pub fn recode_both(
    number: &[u8],
    one: &mut [u8],
    other: &mut [u8],
) -> (Result<usize, Refusal>, Result<usize, Refusal>)
    requires { one.old ≡ other.old }
    ensures answers { (result.0 ≡ recode_answer number.now (length one.old)) × (result.0 ≡ result.1) }
    ensures buffers { (one.new ≡ recode_buffer number.now one.old) × (one.new ≡ other.new) }
{
    (recode(number, one), recode_words(number, other))
}
