// The value of a step that is well formed: refusals 10 and 11, its record, and whether it is a doubling.
#![tactic(auto)]

ghost use Rattle.std.specs.Prelude.{◌≡◌, ◌≢◌, ℕ, ◌+◌, ◌*◌, ◌≤◌, length};
ghost use Rattle.rules.specs.Limits.{record_bytes};
ghost use Rattle.chains.specs.Steps.{Step};
ghost use Rattle.step_values.specs.Verdicts.{StepChecked, Names, signs_at};

use chain_values::{is_small, is_zero};
use records::{distance_between, same_size, store, sum};
use rules::{RECORD_BYTES, Refusal};

// The step whose records stand at `a` and `b` and which fills record i, where what is added, the second
// value or its opposite if the step subtracts, has the sign of the first value. Answers whether it is a
// doubling; its value is not zero, since neither of the two is.
pub fn sum_step(space: &mut [u8], a: usize, b: usize, i: usize) -> Result<bool, Refusal>
    requires { (a + record_bytes ≤ length space.old) × (b + record_bytes ≤ length space.old) × (record_bytes * i + record_bytes ≤ length space.old) }
    ensures { (s : Step) (n : ℕ) → Names s n a b i → signs_at space.old a b ≡ s.operation → StepChecked s n space.old space.new result }
{
    // The second size first: `difference_step` loads the first one first. Loads in the same order would be
    // moved above the branch between the two, and there are not registers for all (an eighth slower).
    let words = sum(space, b + 1, a + 1);
    if !is_small(words) {
        return Err(Refusal::ValueTooLarge(i));
    }
    let sign = space[a];
    store(space, RECORD_BYTES * i, sign, words);
    // After the store: then the compiler loads whole words again (docs/DECISIONS.md, 49).
    Ok(same_size(space, a + 1, b + 1))
}

// The same where what is added has the other sign: no doubling, and its value is below the bound, since
// both sizes are.
pub fn difference_step(space: &mut [u8], a: usize, b: usize, i: usize) -> Result<bool, Refusal>
    requires { (a + record_bytes ≤ length space.old) × (b + record_bytes ≤ length space.old) × (record_bytes * i + record_bytes ≤ length space.old) }
    ensures { (s : Step) (n : ℕ) → Names s n a b i → signs_at space.old a b ≢ s.operation → StepChecked s n space.old space.new result }
{
    let apart = distance_between(space, a + 1, b + 1);
    if is_zero(apart.words) {
        return Err(Refusal::ValueIsZero(i));
    }
    let sign = space[a] ^ u8::from(apart.below);
    store(space, RECORD_BYTES * i, sign, apart.words);
    Ok(false)
}
