// The static library: the calls of `lesmutka`, exported for C and Rust under the same names. A slice is
// passed as a pointer and a length. include/lesmutka.h says what each call takes and leaves. The calls
// stand here a second time since no Rattle crate can use a static library, and crates/cases is to run
// what C links.
#![tactic(auto)]

ghost use Rattle.std.specs.Prelude.{◌≡◌, length};
ghost use Rattle.rules.specs.Limits.{documented, version};
ghost use Rattle.recoding.specs.Recode.{recode_answer, recode_buffer};
ghost use Rattle.taking.specs.Take.{start_answer, start_number};
ghost use Rattle.cleaning.specs.Clean.{clean_answer, clean_buffer};
ghost use Rattle.reading.specs.ReadBack.{read_back_answer, read_back_buffer};
ghost use Rattle.recoding_modified.specs.RecodeModified.{recode_modified_answer, recode_modified_buffer};
ghost use Rattle.recoding_wide.specs.RecodeWide.{recode_wide_answer, recode_wide_buffer};
ghost use Rattle.cleaning_wide.specs.CleanWide.{clean_wide_answer, clean_wide_buffer};
ghost use Rattle.reading_wide.specs.ReadBackWide.{read_back_wide_answer, read_back_wide_buffer};
ghost use Rattle.planning.specs.Plan.{forecast_answer, plan_answer, plan_buffer};
ghost use Rattle.checking.specs.Check.{check_answer, check_space};
ghost use Rattle.hexadecimal.specs.Hex as hexadecimal_text;
ghost use Rattle.decimal.specs.Decimal as decimal_text;
ghost use Rattle.refusal_words.specs.Words.{words_answer, words_buffer};
ghost use Rattle.digit_text.specs.Digits.{digits_answer, digits_buffer};
ghost use Rattle.step_text.specs.Steps.{steps_answer, steps_buffer};
ghost use Rattle.c_answers.specs.Answers.{started_fields, written_fields, read_fields, counted_fields, checked_fields, limit_fields, hexadecimal_fields, decimal_fields};
ghost use Rattle.c_recoder.specs.Kept.{kept_number, IsKeptTake};

use c_answers::{Accepted, Counts, Length, Limits, Parsed, Started, Value};
use c_recoder::KEPT_WORDS;

// Writes the canonical string of a number.
#[unsafe(no_mangle)]
pub extern "C" fn lesmutka_recode(number: &[u8], out: &mut [u8]) -> Length
    ensures answer { result ≡ written_fields (recode_answer number.now (length out.old)) }
    ensures buffer { out.new ≡ recode_buffer number.now out.old }
{
    lesmutka::lesmutka_recode(number, out)
}

// The same by words.
#[unsafe(no_mangle)]
pub extern "C" fn lesmutka_recode_words(number: &[u8], out: &mut [u8]) -> Length
    ensures answer { result ≡ written_fields (recode_answer number.now (length out.old)) }
    ensures buffer { out.new ≡ recode_buffer number.now out.old }
{
    lesmutka::lesmutka_recode_words(number, out)
}

// Writes the modified form of a number.
#[unsafe(no_mangle)]
pub extern "C" fn lesmutka_recode_modified(number: &[u8], out: &mut [u8]) -> Length
    ensures answer { result ≡ written_fields (recode_modified_answer number.now (length out.old)) }
    ensures buffer { out.new ≡ recode_modified_buffer number.now out.old }
{
    lesmutka::lesmutka_recode_modified(number, out)
}

// Starts taking the digits of a number, in a recoder that the caller keeps.
#[unsafe(no_mangle)]
pub extern "C" fn lesmutka_start(number: &[u8], recoder: &mut [u64; KEPT_WORDS]) -> Started
    ensures answer { result ≡ started_fields (start_answer number.now) }
    ensures recoder { kept_number recoder.new ≡ start_number number.now }
{
    lesmutka::lesmutka_start(number, recoder)
}

// Takes the lowest digit that is left.
#[unsafe(no_mangle)]
pub extern "C" fn lesmutka_take(recoder: &mut [u64; KEPT_WORDS]) -> u32
    ensures { IsKeptTake recoder.old recoder.new result }
{
    lesmutka::lesmutka_take(recoder)
}

// Writes the canonical string of a digit string's value.
#[unsafe(no_mangle)]
pub extern "C" fn lesmutka_clean(digits: &[u8], out: &mut [u8]) -> Length
    ensures answer { result ≡ written_fields (clean_answer digits.now (length out.old)) }
    ensures buffer { out.new ≡ clean_buffer digits.now out.old }
{
    lesmutka::lesmutka_clean(digits, out)
}

// Writes the size of a digit string's value.
#[unsafe(no_mangle)]
pub extern "C" fn lesmutka_read_back(digits: &[u8], out: &mut [u8]) -> Value
    ensures answer { result ≡ read_fields (read_back_answer digits.now (length out.old)) }
    ensures buffer { out.new ≡ read_back_buffer digits.now out.old }
{
    lesmutka::lesmutka_read_back(digits, out)
}

// The same three for digits of a width.
#[unsafe(no_mangle)]
pub extern "C" fn lesmutka_recode_wide(number: &[u8], width: u32, out: &mut [u8]) -> Length
    ensures answer { result ≡ written_fields (recode_wide_answer width number.now (length out.old)) }
    ensures buffer { out.new ≡ recode_wide_buffer width number.now out.old }
{
    lesmutka::lesmutka_recode_wide(number, width, out)
}

#[unsafe(no_mangle)]
pub extern "C" fn lesmutka_clean_wide(digits: &[u8], width: u32, out: &mut [u8]) -> Length
    ensures answer { result ≡ written_fields (clean_wide_answer width digits.now (length out.old)) }
    ensures buffer { out.new ≡ clean_wide_buffer width digits.now out.old }
{
    lesmutka::lesmutka_clean_wide(digits, width, out)
}

#[unsafe(no_mangle)]
pub extern "C" fn lesmutka_read_back_wide(digits: &[u8], width: u32, out: &mut [u8]) -> Value
    ensures answer { result ≡ read_fields (read_back_wide_answer width digits.now (length out.old)) }
    ensures buffer { out.new ≡ read_back_wide_buffer width digits.now out.old }
{
    lesmutka::lesmutka_read_back_wide(digits, width, out)
}

// Writes the plan for a number by a method.
#[unsafe(no_mangle)]
pub extern "C" fn lesmutka_plan(number: &[u8], method: u32, width: u32, out: &mut [u8]) -> Counts
    ensures answer { result ≡ counted_fields (plan_answer number.now method width (length out.old)) }
    ensures buffer { out.new ≡ plan_buffer number.now method width out.old }
{
    lesmutka::lesmutka_plan(number, method, width, out)
}

// The counts of that plan's steps.
#[unsafe(no_mangle)]
pub extern "C" fn lesmutka_forecast(number: &[u8], method: u32, width: u32) -> Counts
    ensures { result ≡ counted_fields (forecast_answer number.now method width) }
{
    lesmutka::lesmutka_forecast(number, method, width)
}

// Checks a plan for a number, in a lent work space.
#[unsafe(no_mangle)]
pub extern "C" fn lesmutka_check(number: &[u8], plan: &[u8], space: &mut [u8]) -> Accepted
    ensures answer { result ≡ checked_fields (check_answer number.now plan.now (length space.old)) }
    ensures space { space.new ≡ check_space number.now plan.now space.old }
{
    lesmutka::lesmutka_check(number, plan, space)
}

// The limits that the library keeps.
#[unsafe(no_mangle)]
pub extern "C" fn lesmutka_limits() -> Limits
    ensures { result ≡ limit_fields documented }
{
    lesmutka::lesmutka_limits()
}

// Writes the number of a hexadecimal text.
#[unsafe(no_mangle)]
pub extern "C" fn lesmutka_hexadecimal(text: &[u8], out: &mut [u8]) -> Parsed
    ensures answer { result ≡ hexadecimal_fields (hexadecimal_text.parsed (hexadecimal_text.without_prefix text.now) (length out.old)) }
    ensures buffer { out.new ≡ hexadecimal_text.parsed_buffer (hexadecimal_text.without_prefix text.now) out.old }
{
    lesmutka::lesmutka_hexadecimal(text, out)
}

// Writes the number of a decimal text.
#[unsafe(no_mangle)]
pub extern "C" fn lesmutka_decimal(text: &[u8], out: &mut [u8]) -> Parsed
    ensures answer { result ≡ decimal_fields (decimal_text.parsed text.now (length out.old)) }
    ensures buffer { out.new ≡ decimal_text.parsed_buffer text.now out.old }
{
    lesmutka::lesmutka_decimal(text, out)
}

// The version of the library.
#[unsafe(no_mangle)]
pub extern "C" fn lesmutka_version() -> u32
    ensures { result ≡ version }
{
    lesmutka::lesmutka_version()
}

// Writes what a refusal's number says.
#[unsafe(no_mangle)]
pub extern "C" fn lesmutka_write_words(refusal: usize, out: &mut [u8]) -> Length
    ensures answer { result ≡ written_fields (words_answer refusal (length out.old)) }
    ensures buffer { out.new ≡ words_buffer refusal out.old }
{
    lesmutka::lesmutka_write_words(refusal, out)
}

// Writes the digits of a text.
#[unsafe(no_mangle)]
pub extern "C" fn lesmutka_read_digits(text: &[u8], out: &mut [u8]) -> Length
    ensures answer { result ≡ written_fields (digits_answer text.now (length out.old)) }
    ensures buffer { out.new ≡ digits_buffer text.now out.old }
{
    lesmutka::lesmutka_read_digits(text, out)
}

// Writes the plan of a text, a word for each step.
#[unsafe(no_mangle)]
pub extern "C" fn lesmutka_read_steps(text: &[u8], out: &mut [u8]) -> Length
    ensures answer { result ≡ written_fields (steps_answer text.now (length out.old)) }
    ensures buffer { out.new ≡ steps_buffer text.now out.old }
{
    lesmutka::lesmutka_read_steps(text, out)
}
