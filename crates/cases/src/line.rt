// A line of the input, read byte by byte into fixed memory. A single blank parts its words.
ghost use Rattle.std.specs.Prelude.{◌<◌};

use rules::{PLAN_STEPS, STEP_BYTES};

// The most bytes that the words of a request have together: more than the longest plan has.
pub const LINE_BYTES: usize = 2 * STEP_BYTES * PLAN_STEPS;

// How many words a request has behind the name, at most.
pub const WORDS: usize = 4;

// Room for these words: two digits for each byte, and for each word a digit without a second one
// and a blank.
const LETTERS: usize = 2 * LINE_BYTES + 2 * WORDS;

// A name's letters, at most.
const NAME_LETTERS: usize = 8;

#[derive(Drop)]
pub struct Line {
    // The last letters of the first word, which may be longer; behind zeros if there are fewer.
    name: [u8; NAME_LETTERS],
    // Whether a blank has ended that word.
    is_named: bool,
    // What stands behind the name, as far as there is room: all words of a request that is not long.
    letters: [u8; LETTERS],
    length: usize,
    // How many hexadecimal digits the words have, two to a byte.
    digits: usize,
}

impl Line {
    pub fn new() -> Self {
        Line {
            name: [0; NAME_LETTERS],
            is_named: false,
            letters: [0; LETTERS],
            length: 0,
            digits: 0,
        }
    }

    // Begins a new line. The letters stay, since none from `length` on is read.
    pub fn clear(&mut self) {
        self.name = [0; NAME_LETTERS];
        self.is_named = false;
        self.length = 0;
        self.digits = 0;
    }

    // Adds a byte. A digit without a second one is dropped where its word ends, so that `-` stands
    // for no bytes.
    pub fn push(&mut self, byte: u8) {
        if byte == b' ' {
            self.digits -= self.digits % 2;
        } else {
            self.digits = self.digits.wrapping_add(1);
        }
        if self.is_named {
            if self.length < LETTERS {
                self.letters[self.length] = byte;
                self.length += 1;
            }
        } else if byte == b' ' {
            self.is_named = true;
        } else {
            self.name.rotate_left(1);
            self.name[NAME_LETTERS - 1] = byte;
        }
    }

    // The first word: its last letters, without the zeros before them.
    pub fn name(&self) -> &[u8] {
        let zeros = self.name.iter().take_while(|letter| **letter == 0).count();
        &self.name[zeros..]
    }

    // Whether the words have too many digits for a request.
    pub fn is_long(&self) -> bool {
        LINE_BYTES < self.digits / 2
    }

    // The words behind the name. One that is missing is empty.
    pub fn words(&self) -> [&[u8]; WORDS] {
        let letters = &self.letters[..self.length.min(LETTERS)];
        let mut parts = letters.split(|letter| *letter == b' ');
        [
            parts.next().unwrap_or_default(),
            parts.next().unwrap_or_default(),
            parts.next().unwrap_or_default(),
            parts.next().unwrap_or_default(),
        ]
    }
}

// The low half of a letter's byte counts from 1.
fn digit(letter: u8) -> u8
    ensures { result < 16 }
{
    (letter % 16 + letter / 64 * 9) % 16
}

// The number of a word in decimal, of which no letter is refused. What does not fit is dropped.
pub fn number(word: &[u8]) -> usize {
    let mut number = 0;
    for letter in word {
        number = number % 0x1000000000000000 * 10 + usize::from(digit(*letter));
    }
    number
}

// The bytes of a word in hexadecimal, of which no letter is refused.
pub fn bytes_of<'a>(word: &[u8], bytes: &'a mut [u8; LINE_BYTES]) -> &'a [u8] {
    for (byte, pair) in bytes.iter_mut().zip(word.chunks_exact(2)) {
        *byte = digit(pair[0]) * 16 + digit(pair[1]);
    }
    &bytes[..(word.len() / 2).min(LINE_BYTES)]
}
