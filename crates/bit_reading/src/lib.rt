// Implements document 01, "Reading" (R3): one bit, and a field of up to 32 bits, at a place of a
// payload. A place is a bit number, and may lie past the end. A field comes out of one window of up
// to eight bytes. The payload's limit, 4,194,304 bytes, keeps every place within the integers that
// hold them.

#![tactic(auto)]

ghost use Rattle.std.specs.Prelude.{◌≡◌, ◌≤◌, length};
ghost use Rattle.answers.specs.Limits.{max_payload_bytes};
ghost use Rattle.bits.specs.Bits.{bits_of};
ghost use Rattle.bits.specs.Fields.{get_bits};

use bit_windows::load::window;

// The bit at `at`, as a field of one bit.
pub fn get_bit(s: &[u8], at: usize) -> Option<(u32, usize)>
    requires limit { length s.now ≤ max_payload_bytes }
    ensures { result ≡ get_bits (bits_of s.now) at 1 }
{
    let byte = *s.get(at / 8)?;
    Some((u32::from((byte >> (at % 8)) % 2), at + 1))
}

// The number of `count` bits at `at`, low bit first. No bits are found at every place.
pub fn get_bits(s: &[u8], at: usize, count: u32) -> Option<(u32, usize)>
    requires limit { length s.now ≤ max_payload_bytes }
    requires width { count ≤ 32 }
    ensures { result ≡ get_bits (bits_of s.now) at count }
{
    let i = at / 8;
    if i >= s.len() {
        if count == 0 {
            return Some((0, at));
        }
        return None;
    }
    let k = at % 8;
    if count as usize > 8 * (s.len() - i) - k {
        return None;
    }
    let x = (window(s, i) >> k) % (1 << count);
    Some((x as u32, at + count as usize))
}
