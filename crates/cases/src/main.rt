// Answers the requests on standard input, one a line, by the functions that C and Rust link. A
// request is the name of a call, the room to lend, then the inputs of the call:
//
//     recode ROOM NUMBER
//     bywords ROOM NUMBER
//     mrecode ROOM NUMBER
//     take TIMES NUMBER
//     clean ROOM DIGITS
//     readback ROOM DIGITS
//     wrecode ROOM NUMBER WIDTH
//     wclean ROOM DIGITS WIDTH
//     wread ROOM DIGITS WIDTH
//     plan ROOM NUMBER METHOD WIDTH
//     forecast 0 NUMBER METHOD WIDTH
//     check ROOM NUMBER PLAN
//     hex ROOM TEXT
//     decimal ROOM TEXT
//     digits ROOM TEXT
//     steps ROOM TEXT
//     words ROOM - REFUSAL
//
// NUMBER, DIGITS, PLAN and TEXT are bytes in hexadecimal, or `-` for none; all else is decimal. A request
// is copied, and behind it stand the fields of the answer in the order of include/lesmutka.h, then
// the lent buffer: its bytes up to the last one that changed, and how many above it did not. A take
// has instead what each take answers, then the words of the recoder. A request that does not fit is
// answered with one word: `long`, `room` or `unknown`. A line that is empty or begins with `# ` is
// copied and not answered, and so is a last line without its newline.
#![tactic(auto)]

mod line;
mod show;

use c_answers::{Accepted, Counts, Length, Parsed, Value};
use lesmutka::{
    lesmutka_check, lesmutka_clean, lesmutka_clean_wide, lesmutka_decimal, lesmutka_forecast,
    lesmutka_hexadecimal, lesmutka_plan, lesmutka_read_back, lesmutka_read_back_wide,
    lesmutka_read_digits, lesmutka_read_steps, lesmutka_recode, lesmutka_recode_modified,
    lesmutka_recode_wide, lesmutka_recode_words, lesmutka_start, lesmutka_take,
    lesmutka_write_words,
};
use line::{LINE_BYTES, Line, bytes_of, number};
use rules::{NUMBER_WORDS, PLAN_STEPS, RECORD_BYTES};
use show::{FILL, put_buffer, put_numbers};
use std::io;
use std::io::{BufWriter, Read, Write};
use taking::Recoder;

// The most room that is lent: a record more than the longest plan takes.
const ROOM_BYTES: usize = RECORD_BYTES * (PLAN_STEPS + 2);

// How much is read and written at a time.
const BLOCK_BYTES: usize = 65536;

// The bytes of a request's words, and the space that is lent. They are made once, since filling them
// takes longer than most calls. A call is lent no more of them than its request has written.
#[derive(Drop)]
struct Buffers {
    input: [u8; LINE_BYTES],
    plan: [u8; LINE_BYTES],
    space: [u8; ROOM_BYTES],
}

// Takes this many digits, in place as C does and by value. Each take is answered by one number, 256 if
// none is left; were the two to differ, by two. What a recoder holds is fixed only once it is done:
// zeros.
fn take<W: Write>(to: &mut W, number: &[u8], times: usize) -> io::Result<()> {
    let mut kept = [0; NUMBER_WORDS + 1];
    let started = lesmutka_start(number, &mut kept);
    put_numbers(to, &[started.refusal, started.place])?;
    let mut recoder = Recoder::start(number).recoder;
    for _ in 0..times {
        let answer = lesmutka_take(&mut kept) as usize;
        put_numbers(to, &[answer])?;
        let taken = recoder.take();
        recoder = taken.next;
        let same = taken.answer.map_or(256, usize::from);
        if same != answer {
            put_numbers(to, &[same])?;
        }
    }
    for word in kept {
        put_numbers(to, &[word as usize])?;
    }
    Ok(())
}

// The fields of an answer, in the order of include/lesmutka.h.

fn put_length<W: Write>(to: &mut W, a: Length) -> io::Result<()> {
    put_numbers(to, &[a.refusal, a.place, a.length])
}

fn put_parsed<W: Write>(to: &mut W, a: Parsed) -> io::Result<()> {
    put_numbers(to, &[a.is_number, a.place, a.length])
}

fn put_value<W: Write>(to: &mut W, a: Value) -> io::Result<()> {
    put_numbers(to, &[a.refusal, a.place, a.sign, a.length])
}

fn put_counts<W: Write>(to: &mut W, a: Counts) -> io::Result<()> {
    put_numbers(
        to,
        &[a.refusal, a.place, a.doublings, a.additions, a.subtractions],
    )
}

fn put_accepted<W: Write>(to: &mut W, a: Accepted) -> io::Result<()> {
    put_numbers(
        to,
        &[
            a.refusal,
            a.place,
            a.doublings,
            a.additions,
            a.subtractions,
            a.largest_bits,
        ],
    )
}

// Makes the call of a name, and writes what it answered and left.
fn call<W: Write>(
    to: &mut W,
    name: &[u8],
    input: &[u8],
    plan: &[u8],
    method: u32,
    width: u32,
    out: &mut [u8],
) -> io::Result<()> {
    match name {
        b"recode" => put_length(to, lesmutka_recode(input, out))?,
        b"bywords" => put_length(to, lesmutka_recode_words(input, out))?,
        b"mrecode" => put_length(to, lesmutka_recode_modified(input, out))?,
        b"clean" => put_length(to, lesmutka_clean(input, out))?,
        b"readback" => put_value(to, lesmutka_read_back(input, out))?,
        b"wrecode" => put_length(to, lesmutka_recode_wide(input, method, out))?,
        b"wclean" => put_length(to, lesmutka_clean_wide(input, method, out))?,
        b"wread" => put_value(to, lesmutka_read_back_wide(input, method, out))?,
        b"plan" => put_counts(to, lesmutka_plan(input, method, width, out))?,
        b"forecast" => return put_counts(to, lesmutka_forecast(input, method, width)),
        b"check" => put_accepted(to, lesmutka_check(input, plan, out))?,
        b"hex" => put_parsed(to, lesmutka_hexadecimal(input, out))?,
        b"decimal" => put_parsed(to, lesmutka_decimal(input, out))?,
        b"digits" => put_length(to, lesmutka_read_digits(input, out))?,
        b"steps" => put_length(to, lesmutka_read_steps(input, out))?,
        b"words" => put_length(to, lesmutka_write_words(method as usize, out))?,
        _ => return to.write_all(b" unknown"),
    }
    put_buffer(to, out)
}

// The low half of a number.
fn low(number: usize) -> u32 {
    (number % 0x100000000) as u32
}

// Answers a line, if it is a request: if its first word is not empty, and is no single letter up to `#`.
fn answer<W: Write>(to: &mut W, line: &Line, buffers: &mut Buffers) -> io::Result<()> {
    let name = line.name();
    if let [] | [0..=b'#'] = name {
        return Ok(());
    }
    if line.is_long() {
        return to.write_all(b": long");
    }
    let [room, input, plan_or_method, width] = line.words();
    let room = number(room);
    if ROOM_BYTES < room {
        return to.write_all(b": room");
    }
    to.write_all(b":")?;
    let input = bytes_of(input, &mut buffers.input);
    // A take is lent nothing. How often it is made stands where the others have their room.
    if let b"take" = name {
        return take(to, input, room);
    }
    let space = &mut buffers.space[..];
    let out = &mut space[..room];
    out.fill(FILL);
    call(
        to,
        name,
        input,
        bytes_of(plan_or_method, &mut buffers.plan),
        low(number(plan_or_method)),
        low(number(width)),
        out,
    )
}

// Copies a byte of the input. Where it ends a line, the answer comes before it.
fn read_byte<W: Write>(
    to: &mut W,
    byte: u8,
    line: &mut Line,
    buffers: &mut Buffers,
) -> io::Result<()> {
    if byte == b'\n' {
        answer(to, line, buffers)?;
        line.clear();
    } else {
        line.push(byte);
    }
    to.write_all(&[byte])
}

// Nothing says that the input ends, so the loop has as many turns as no run uses up.
fn main(rt: HostRuntime) -> io::Result<()> {
    let mut input = rt.stdin();
    let mut output = BufWriter::with_capacity(rt.alloc(), BLOCK_BYTES, rt.stdout())?;
    let mut block = [0; BLOCK_BYTES];
    let mut line = Line::new();
    let mut buffers = Buffers {
        input: [0; LINE_BYTES],
        plan: [0; LINE_BYTES],
        space: [0; ROOM_BYTES],
    };
    for _ in 0..u64::MAX {
        let length = input.read(&mut block)?;
        if length == 0 {
            break;
        }
        for byte in &block[..length] {
            read_byte(&mut output, *byte, &mut line, &mut buffers)?;
        }
    }
    output.flush()
}
