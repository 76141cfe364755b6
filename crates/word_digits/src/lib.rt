// Up to 64 canonical digits of a number e, by a word of 3 e and the word of e there. A digit is not 0 where
// the two differ, and is -1 where e has the 1. Of two neighbouring digits one is 0, so four digits are
// known by their nonzero places and twice those of -1, a number below 32, and are looked up by it.
#![tactic(auto)]

ghost use Rattle.std.specs.Prelude.{◌≡◌, ◌<◌, ◌≤◌, length};
ghost use Rattle.std.specs.Int.Bits.{bit_xor};
ghost use Rattle.integers.specs.Positional.{bytes_value};
ghost use Rattle.integers.specs.Tabulate.{tabulate};
ghost use Rattle.recoding_digits.specs.Internal.{difference};
ghost use Rattle.word_digits.specs.Internal.{Apart, index_byte, four_digits, entries};

use words::{store_low, store_word};

// The numbers of the digits at the low four places of each byte.
fn indices(more: u64, less: u64) -> u64
    ensures { result ≡ bytes_value (tabulate (index_byte more less) 8) }
{
    let low = less & 0x0F0F_0F0F_0F0F_0F0F;
    let places = (more & 0x0F0F_0F0F_0F0F_0F0F) ^ low;
    places + 2 * (places & low)
}

// The bytes of the eight digits whose numbers stand in byte j of two words.
fn eight_digits(fours: &[u32; 32], low: u64, high: u64, j: usize) -> u64
    requires { j < 8 }
    ensures { result ≡ entries fours.now low high j }
{
    let first = ((low >> (8 * j)) % 32) as usize;
    let second = ((high >> (8 * j)) % 32) as usize;
    u64::from(fours[first]) + 0x1_0000_0000 * u64::from(fours[second])
}

// Writes as many of the low digits of a word of 3 e and one of e as there is room for.
pub fn write_word(out: &mut [u8], fours: &[u32; 32], more: u64, less: u64)
    requires room { length out.old ≤ 64 }
    requires fours_value { fours.now ≡ four_digits }
    requires apart { Apart (bit_xor more less) }
    ensures { out.new ≡ tabulate (difference more less) (length out.old) }
{
    let low = indices(more, less);
    let high = indices(more / 16, less / 16);
    let whole = out.len() / 8;
    let rest = out.len() % 8;
    for j in 0..whole {
        store_word(out, 8 * j, eight_digits(fours, low, high, j));
    }
    if 0 < rest {
        store_low(out, 8 * whole, rest, eight_digits(fours, low, high, whole));
    }
}
