// Bytes into a lent buffer, by the memory rule.
#![tactic(auto)]

ghost use Rattle.std.specs.Prelude.{◌≡◌, length};
ghost use Rattle.rules.specs.Memory.{fitted, leaves};

use rules::Refusal;

// Puts bytes at the start of a buffer that has room for all of them; else refusal 6. Byte by byte: by
// `copy_from_slice`, a copy from a constant would be a call of memmove, and the archive for C calls memcpy
// and memset alone.
#[tactic(auto, using(rules::proofs::Fitted::too_small, rules::proofs::Fitted::fits))]
pub fn put(bytes: &[u8], out: &mut [u8]) -> Result<usize, Refusal>
    ensures answer { result ≡ fitted bytes.now (length out.old) }
    ensures buffer { out.new ≡ leaves (fitted bytes.now (length out.old)) bytes.now out.old }
{
    let length = bytes.len();
    if out.len() < length {
        return Err(Refusal::RoomTooSmall(length));
    }
    for (k, byte) in bytes.iter().enumerate() {
        out[k] = *byte;
    }
    Ok(length)
}
