// The step that a word is: add(J,K) or subtract(J,K), with decimal positions J and K.
#![tactic(auto)]

ghost use Rattle.std.specs.Prelude.{◌≡◌, ◌<◌, take, MatchOption};
ghost use Rattle.decimal.specs.Decimal.{decimal_value};
ghost use Rattle.step_reading.specs.Fields.{as_step};
ghost use Rattle.step_words.specs.Word.{position_digits, step_in, step_or_none, word_step};

use decimal::is_digit;
use step_reading::Step;

// A position has two bytes.
const POSITIONS: usize = 65536;

// The operation of what is no step: one that no step has. It is written, so that check refuses the step
// at its place.
const NO_OPERATION: u8 = 2;

// A position at the start of a text: its number, and how many digits it has.
#[derive(Clone, Copy)]
struct Position {
    value: usize,
    digits: usize,
}

// The position that a text begins with, up to this byte. The first byte that cannot belong to it
// decides, so the number never grows large, and no more of the text is read.
fn position_before(text: &[u8], end: u8) -> Option<Position>
    requires { (0 < end) × (end < 48) }
    ensures { MatchOption result (position_digits text.now end ≡ 0) (λ p. (0 < p.digits) × (p.digits ≡ position_digits text.now end) × (p.value ≡ decimal_value (take p.digits text.now))) }
{
    let mut value = 0;
    for (digits, byte) in text.iter().enumerate() {
        if *byte == end {
            return (digits != 0).then_some(Position { value, digits });
        }
        if !is_digit(*byte) {
            return None;
        }
        value = value * 10 + usize::from(*byte - b'0');
        if POSITIONS <= value {
            return None;
        }
    }
    None
}

// The step of an operation, by the text of its positions.
#[tactic(auto, using(crate::proofs::Positions::position_within))]
fn step_in(operation: u8, text: &[u8]) -> Option<Step>
    ensures { step_or_none result ≡ step_in operation text.now }
{
    let first = position_before(text, b',')?;
    let behind = &text[first.digits + 1..];
    let second = position_before(behind, b')')?;
    if behind.len() != second.digits + 1 {
        return None;
    }
    Some(Step {
        operation,
        first: first.value,
        second: second.value,
    })
}

// The step of a word that is one.
fn read(word: &[u8]) -> Option<Step>
    ensures { step_or_none result ≡ word_step word.now }
{
    if let Some(text) = word.strip_prefix(b"add(") {
        return step_in(0, text);
    }
    if let Some(text) = word.strip_prefix(b"subtract(") {
        return step_in(1, text);
    }
    None
}

// The step that a word is.
pub fn step_of(word: &[u8]) -> Step
    ensures { as_step result ≡ word_step word.now }
{
    read(word).unwrap_or(Step {
        operation: NO_OPERATION,
        first: 0,
        second: 0,
    })
}
