// The digits of the modified form of a number e: the canonical ones by the words of 3 e and of e, and
// 1 1 for leading digits 1 0 -1.
#![tactic(auto)]

ghost use Rattle.std.specs.Prelude.{◌≡◌, ◌++◌, ℕ, ◌+◌, ◌*◌, ◌/◌, ◌<◌, ◌≤◌, length, drop, get_or};
ghost use Rattle.integers.specs.Positional.{bytes_value, words_value};
ghost use Rattle.signed_digits.specs.Modified.{modified};
ghost use Rattle.signed_digits.specs.Bytes.{digit_bytes};
ghost use Rattle.digit_strings.specs.Places.{place_byte};
ghost use Rattle.modified_digits.specs.Form.{ShapeOf};

use numbers::Number;
use recoding_words_digits::{write, write_raised};
use triples::{count, saved};

// How many digits there are, and how many of them, from the lowest up, are the canonical ones: all, or
// all but the top two, which are 1 1.
#[derive(Clone, Copy)]
pub struct Shape {
    pub length: usize,
    pub kept: usize,
}

pub fn shape_of(number: &Number, triple: &[u64]) -> Shape
    requires { words_value triple.now ≡ 3 * bytes_value number.now }
    ensures { ShapeOf (bytes_value number.now) result }
{
    let plain = count(number, triple);
    let fewer = saved(triple, plain);
    let length = plain - fewer;
    let kept = plain - 3 * fewer;
    Shape { length, kept }
}

// Writes the digits of the number that the words hold.
pub fn write_form(words: &[u64], triple: &[u64], out: &mut [u8], form: Shape)
    requires triple_value { words_value triple.now ≡ 3 * words_value words.now }
    requires shape_of { ShapeOf (words_value words.now) form }
    requires length_in_bounds { form.length ≤ length out.old }
    ensures { out.new ≡ digit_bytes (modified (words_value words.now)) ++ drop form.length out.old }
{
    let kept = form.kept;
    write(words, triple, out, kept);
    if kept < form.length {
        out[kept] = 1;
        out[kept + 1] = 1;
    }
}

// Writes them one place up, as `write_raised` does: the digit at place i is byte i + 1. One function for
// both would be no plainer: they share a test and two stores, and promise different things of the rest.
pub fn write_form_raised(words: &[u64], triple: &[u64], out: &mut [u8], form: Shape)
    requires triple_value { words_value triple.now ≡ 3 * words_value words.now }
    requires shape_of { ShapeOf (words_value words.now) form }
    requires length_in_bounds { 64 * (form.length / 64 + 1) ≤ length out.old }
    ensures { (i : ℕ) → i < form.length → get_or out.new (i + 1) 0 ≡ place_byte (modified (words_value words.now)) i }
{
    let low = form.kept;
    write_raised(words, triple, out, low);
    if low < form.length {
        out[low + 1] = 1;
        out[low + 2] = 1;
    }
}
