// Implements document 01, "One word", the code inside an interval: a number from 0 to the
// interval's last code, in as few bits as that allows: out of a window that holds all its bits, or
// field by field where the payload may end. Whether a code has its last bit is as random as a coin,
// so in a window no branch hangs on it: two functions of their own choose between the cases, which
// the compiler leaves as choices.

#![tactic(auto)]

ghost use Rattle.std.specs.Prelude.{◌≡◌, cond, ◌+◌, ◌-◌, ◌*◌, ◌≤◌, ◌<◌, ltb, length};
ghost use Rattle.answers.specs.Limits.{max_payload_bytes};
ghost use Rattle.bits.specs.Bits.{bits_of};
ghost use Rattle.fields.specs.Code.{code_of, truncated_binary, CodeIn};

use bit_reading::{get_bit, get_bits};
use fields::bit_length;

// A code out of a window, and how many bits it takes.
#[derive(Clone, Copy)]
pub struct WindowCode {
    pub code: u32,
    pub used: u32,
}

// The code of a short code and the bit behind it.
fn chosen(short: u32, extras: u32, extra: u32) -> u32
    requires short { short < 1073741824 }
    requires bit { extra ≤ 1 }
    ensures { result ≡ cond (ltb short extras) short (2 * short - extras + extra) }
{
    if short < extras {
        short
    } else {
        2 * short - extras + extra
    }
}

// 1 where the bit behind a short code is part of the code.
fn reached(short: u32, extras: u32) -> u32
    ensures { result ≡ cond (ltb short extras) 0 1 }
{
    if short < extras { 0 } else { 1 }
}

// The code at the start of a window, inside an interval whose last code is `last`; where that is 0
// it takes no bit. With its lowest bit set a number is as long, and never 0.
pub fn code_in_window(v: u64, last: u32) -> WindowCode
    requires interval { last < 2147483648 }
    ensures { CodeIn v last result.code result.used }
{
    let short_width = bit_length(last / 2 * 2 + 1) - 1;
    let short = (v % (1 << short_width)) as u32;
    let extras = (2 << short_width) - last - 1;
    let extra = ((v >> short_width) % 2) as u32;
    WindowCode {
        code: chosen(short, extras, extra),
        used: short_width + reached(short, extras),
    }
}

// A code of `width` bits, or of one bit less where it is below `extras`.
fn read_code(payload: &[u8], place: usize, width: u32, extras: u32) -> Option<(u32, usize)>
    requires limit { length payload.now ≤ max_payload_bytes }
    requires width { (0 < width) × (width ≤ 31) }
    ensures { result ≡ code_of (bits_of payload.now) place width extras }
{
    let (short, next) = get_bits(payload, place, width - 1)?;
    if short < extras {
        return Some((short, next));
    }
    let (extra, after) = get_bit(payload, next)?;
    Some((2 * short - extras + extra, after))
}

// The code at a place inside an interval whose last code is `last`; where that is 0, no bit is
// read. None where a bit is missing.
pub fn read_truncated_binary(payload: &[u8], place: usize, last: u32) -> Option<(u32, usize)>
    requires limit { length payload.now ≤ max_payload_bytes }
    requires interval { last < 2147483648 }
    ensures { result ≡ truncated_binary (bits_of payload.now) place last }
{
    if last == 0 {
        return Some((0, place));
    }
    let width = bit_length(last);
    read_code(payload, place, width, (1 << width) - last - 1)
}
