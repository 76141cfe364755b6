// The canonical digits of a number e, 64 at a time, by the words of 3 e and of e.
#![tactic(auto)]

ghost use Rattle.std.specs.Prelude.{◌≡◌, ◌++◌, ℕ, ◌+◌, ◌*◌, ◌/◌, ◌<◌, ◌≤◌, pos, length, drop, get_or};
ghost use Rattle.integers.specs.Positional.{words_value};
ghost use Rattle.integers.specs.Tabulate.{tabulate};
ghost use Rattle.signed_digits.specs.Naf.{canonical};
ghost use Rattle.digit_strings.specs.Places.{place_byte};

use word_digits::write_word;
use words::word_in;

// The table in which `write_word` looks up four digits: their bytes, at their number. No four canonical
// digits have the numbers that are left 0.
const FOUR_DIGITS: [u32; 32] = [
    0,
    0x0000_0001,
    0x0000_0100,
    0x0000_00FF,
    0x0001_0000,
    0x0001_0001,
    0x0000_FF00,
    0x0001_00FF,
    0x0100_0000,
    0x0100_0001,
    0x0100_0100,
    0x0100_00FF,
    0x00FF_0000,
    0x00FF_0001,
    0x0100_FF00,
    0x00FF_00FF,
    0,
    0,
    0,
    0,
    0,
    0,
    0,
    0,
    0xFF00_0000,
    0xFF00_0001,
    0xFF00_0100,
    0xFF00_00FF,
    0,
    0,
    0xFF00_FF00,
    0,
];

// Writes the first `count` canonical digits of the number that the words hold. Two slices and no `Tripled`,
// since there may be any number of words. Bits stand one place above their digits: of the lowest word the
// lowest bit is left out, and the digits of each word above begin one place down. So no word is shifted but
// the lowest.
#[tactic(auto, unfolding(word_digits::specs::Internal::four_digits))]
pub fn write(words: &[u64], triple: &[u64], out: &mut [u8], count: usize)
    requires triple_value { words_value triple.now ≡ 3 * words_value words.now }
    requires count_in_bounds { count ≤ length out.old }
    ensures { out.new ≡ tabulate (place_byte (canonical (pos (words_value words.now)))) count ++ drop count out.old }
{
    let fours = FOUR_DIGITS;
    let more = word_in(triple, 0) / 2;
    let less = word_in(words, 0) / 2;
    if count < 63 {
        write_word(&mut out[..count], &fours, more, less);
        return;
    }
    write_word(&mut out[..63], &fours, more, less);
    let whole = (count + 1) / 64;
    for k in 1..whole {
        write_word(
            &mut out[64 * k - 1..64 * k + 63],
            &fours,
            word_in(triple, k),
            word_in(words, k),
        );
    }
    write_word(
        &mut out[64 * whole - 1..count],
        &fours,
        word_in(triple, whole),
        word_in(words, whole),
    );
}

// Writes the first `count` canonical digits one place up, each where its bit is: the digit at place i is
// byte i + 1. Whole words of bytes are written, so what stands at 0 and above the digits is left open.
// One function for both, over the place, would be no plainer: here no word is halved and none is cut off,
// which is what the steps before and after the loop of `write` are for.
#[tactic(auto, unfolding(word_digits::specs::Internal::four_digits))]
pub fn write_raised(words: &[u64], triple: &[u64], out: &mut [u8], count: usize)
    requires triple_value { words_value triple.now ≡ 3 * words_value words.now }
    requires count_in_bounds { 64 * (count / 64 + 1) ≤ length out.old }
    ensures { (i : ℕ) → i < count → get_or out.new (i + 1) 0 ≡ place_byte (canonical (pos (words_value words.now))) i }
{
    let fours = FOUR_DIGITS;
    for k in 0..count / 64 + 1 {
        write_word(
            &mut out[64 * k..64 * k + 64],
            &fours,
            word_in(triple, k),
            word_in(words, k),
        );
    }
}
