// The readers and the writer for any slice, any place and any width: what lies over document 01's
// limits is refused as too large, and nothing else is asked of the caller. Each answer is told by
// document 01's number and the case's values.

#![tactic(auto)]

ghost use Rattle.std.specs.Prelude.{◌≡◌};
ghost use Rattle.bits.specs.Checked.{told, put_told, bit_read, bits_read_at, unary_read, written};

use answers::Refusal;
use answers::limits::MAX_PAYLOAD_BYTES;
use bit_laying::lay_bits;
use bit_reading::{get_bit, get_bits};
use unary_reading::get_unary;

// The bit at `at`; 3 past the end, 5 for a payload over the limit.
pub fn checked_get_bit(s: &[u8], at: usize) -> Result<(u32, usize), Refusal>
    ensures { told result ≡ bit_read s.now at }
{
    if s.len() > MAX_PAYLOAD_BYTES {
        return Err(Refusal::TooLarge);
    }
    get_bit(s, at).ok_or(Refusal::Truncated)
}

// The number of `count` bits at `at`; 3 where one is missing, 5 for a payload over the limit or a
// field over 32 bits.
pub fn checked_get_bits(s: &[u8], at: usize, count: u32) -> Result<(u32, usize), Refusal>
    ensures { told result ≡ bits_read_at s.now at count }
{
    if s.len() > MAX_PAYLOAD_BYTES {
        return Err(Refusal::TooLarge);
    }
    if count > 32 {
        return Err(Refusal::TooLarge);
    }
    get_bits(s, at, count).ok_or(Refusal::Truncated)
}

// The ones at `at` up to a zero; 3 where no zero follows, 5 for a payload over the limit.
pub fn checked_get_unary(s: &[u8], at: usize) -> Result<(u32, usize), Refusal>
    ensures { told result ≡ unary_read s.now at }
{
    if s.len() > MAX_PAYLOAD_BYTES {
        return Err(Refusal::TooLarge);
    }
    get_unary(s, at).ok_or(Refusal::Truncated)
}

// Lays the `count` low bits of v from `at` on; 11 where the buffer is too short, 5 for a buffer
// over the limit or a field over 32 bits. Where it refuses, the buffer keeps its bytes.
pub fn checked_put_bits(out: &mut [u8], at: usize, v: u32, count: u32) -> Result<usize, Refusal>
    ensures answer { put_told result ≡ (written out.old at v count).answer }
    ensures buffer { out.new ≡ (written out.old at v count).buffer }
{
    if out.len() > MAX_PAYLOAD_BYTES {
        return Err(Refusal::TooLarge);
    }
    if count > 32 {
        return Err(Refusal::TooLarge);
    }
    let end = 8 * out.len();
    if at > end {
        return Err(Refusal::OutputTooShort);
    }
    if count as usize > end - at {
        return Err(Refusal::OutputTooShort);
    }
    Ok(lay_bits(out, at, v, count))
}
