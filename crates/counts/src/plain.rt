// Counting bit by bit, by nothing but the bits of each byte.
use answers::Refusal;
use answers::limits::MAX_PAYLOAD_BYTES;

// The ones at `at` up to a zero; 3 where no zero follows, 5 for a payload over the limit.
pub fn count_bit_by_bit(s: &[u8], at: usize) -> Result<(u32, usize), Refusal> {
    if s.len() > MAX_PAYLOAD_BYTES {
        return Err(Refusal::TooLarge);
    }
    for p in at..8 * s.len() {
        if (s[p / 8] >> (p % 8)) % 2 == 0 {
            return Ok(((p - at) as u32, p + 1));
        }
    }
    Err(Refusal::Truncated)
}
