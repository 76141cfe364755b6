// What is written of an answer: its fields, and what a call left in the buffer that it was lent.
use std::io;
use std::io::Write;

// What a lent buffer holds before the call: no digit, no sign, no operation.
pub const FILL: u8 = 0xa5;

pub fn put_numbers<W: Write>(to: &mut W, numbers: &[usize]) -> io::Result<()> {
    for number in numbers {
        write!(to, " {number}")?;
    }
    Ok(())
}

// The bytes up to the last one that changed, and how many stand above it.
pub fn put_buffer<W: Write>(to: &mut W, bytes: &[u8]) -> io::Result<()> {
    let end = match bytes.iter().rposition(|byte| *byte != FILL) {
        Some(last) => last + 1,
        None => 0,
    };
    let (changed, above) = bytes.split_at(end);
    to.write_all(b" ")?;
    for byte in changed {
        write!(to, "{byte:02x}")?;
    }
    let above = above.len();
    write!(to, "+{above}")
}
