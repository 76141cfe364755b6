// The words of a refusal, for languages that cannot read the header for C.
#![tactic(auto)]

ghost use Rattle.std.specs.Prelude.{◌≡◌, length};
ghost use Rattle.refusal_words.specs.Words.{text_bytes, words, words_answer, words_buffer};

use output::put;
use rules::Refusal;

// What a refusal says, by its number; 0 is none.
fn text_of(refusal: usize) -> &'static str
    ensures { result.now ≡ text_bytes (words refusal) }
{
    match refusal {
        0 => "not refused",
        1 => "the number is too long",
        2 => "the number is zero",
        3 => "no such method, or a width that it does not allow",
        4 => "the byte at this place is no digit",
        5 => "the digit string is too long",
        6 => "the output needs this many bytes",
        7 => "the plan is no whole number of steps, or has too many",
        8 => "the work space is too short for the plan",
        9 => "this step has an unknown operation, or a position that is not below its own",
        10 => "the value at this step is zero",
        11 => "the value at this step is too large",
        12 => "the last value, at this position, is not the number",
        13 => "the highest byte of the number is zero",
        _ => "no such refusal",
    }
}

// Writes what a refusal's number says.
pub fn write_words(refusal: usize, out: &mut [u8]) -> Result<usize, Refusal>
    ensures answer { result ≡ words_answer refusal (length out.old) }
    ensures buffer { out.new ≡ words_buffer refusal out.old }
{
    put(text_of(refusal).as_bytes(), out)
}
