// Implements the counts of ones in document 01, "One word" (N1, N2), at a place of a payload: through
// windows of eight bytes, and through single bytes near the end (document 02, §3: Q3.1, Q3.2). A place
// is a bit number, and may lie past the end. The payload's limit, 4,194,304 bytes, keeps every place
// and count within the integers that hold them.

#![tactic(auto)]

ghost use Rattle.std.specs.Prelude.{◌≡◌, ◌≤◌, length};
ghost use Rattle.answers.specs.Limits.{max_payload_bytes};
ghost use Rattle.bits.specs.Bits.{bits_of};
ghost use Rattle.bits.specs.Fields.{unary};

use bit_windows::load::eight;

// How many ones stand at `at` up to a zero, which is read too: a byte at a time, for the last bytes
// of a payload. The shift leaves zeros above a byte's bits, so no bit that is missing counts.
fn get_unary_in_bytes(s: &[u8], at: usize) -> Option<(u32, usize)>
    requires limit { length s.now ≤ max_payload_bytes }
    ensures { result ≡ unary (bits_of s.now) at }
{
    let mut p = at;
    while p / 8 < s.len() {
        let k = p % 8;
        let n = (s[p / 8] >> k).trailing_ones() as usize;
        if n + k < 8 {
            return Some(((p + n - at) as u32, p + n + 1));
        }
        p += n;
    }
    None
}

// How many ones stand at `at` up to a zero, which is read too: eight bytes at a time while so many
// are left.
pub fn get_unary(s: &[u8], at: usize) -> Option<(u32, usize)>
    requires limit { length s.now ≤ max_payload_bytes }
    ensures { result ≡ unary (bits_of s.now) at }
{
    let mut p = at;
    while p / 8 + 8 <= s.len() {
        let k = p % 8;
        let n = (eight(s, p / 8) >> k).trailing_ones() as usize;
        if n + k < 64 {
            return Some(((p + n - at) as u32, p + n + 1));
        }
        p += 64 - k;
    }
    let (n, next) = get_unary_in_bytes(s, p)?;
    Some(((p - at) as u32 + n, next))
}
