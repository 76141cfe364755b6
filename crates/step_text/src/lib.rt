// A plan's steps from text: a word for each step.
#![tactic(auto)]

ghost use Rattle.std.specs.Prelude.{◌≡◌, length};
ghost use Rattle.step_text.specs.Steps.{steps_answer, steps_buffer};

use plan_writing::put;
use rules::{PLAN_STEPS, Refusal, STEP_BYTES};
use step_words::step_of;
use text_words::{TextWords, word_count};

// The most words of a text: each is a step of a plan.
const MOST_WORDS: usize = PLAN_STEPS;

// Writes the steps of a text's words.
pub fn read_steps(text: &[u8], out: &mut [u8]) -> Result<usize, Refusal>
    ensures answer { result ≡ steps_answer text.now (length out.old) }
    ensures buffer { out.new ≡ steps_buffer text.now out.old }
{
    let words = word_count(text);
    if MOST_WORDS < words {
        return Err(Refusal::PlanLength);
    }
    if out.len() < STEP_BYTES * words {
        return Err(Refusal::RoomTooSmall(STEP_BYTES * words));
    }
    // The range stands first: it ends with the last word, so the blanks behind that are not read again.
    for (n, word) in (0..words).zip(TextWords(text)) {
        let step = step_of(word);
        put(out, n, step.operation, step.first, step.second);
    }
    Ok(STEP_BYTES * words)
}
