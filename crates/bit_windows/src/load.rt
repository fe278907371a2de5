// Bytes of a payload as one number, the first byte lowest. The compiler makes `eight` a single
// load, so a field costs one, except in the last seven bytes of the payload.
ghost use Rattle.std.specs.Prelude.{◌≡◌, ◌+◌, ◌≤◌, length, take, drop};
ghost use Rattle.bits.specs.Bits.{bits_of, num};

pub fn eight(s: &[u8], i: usize) -> u64
    requires { i + 8 ≤ length s.now }
    ensures { result ≡ num (bits_of (take 8 (drop i s.now))) }
{
    u64::from_le_bytes([
        s[i],
        s[i + 1],
        s[i + 2],
        s[i + 3],
        s[i + 4],
        s[i + 5],
        s[i + 6],
        s[i + 7],
    ])
}

// Up to eight bytes from byte i on: fewer at the end of the payload.
pub fn window(s: &[u8], i: usize) -> u64
    requires { i ≤ length s.now }
    ensures { result ≡ num (bits_of (take 8 (drop i s.now))) }
{
    let n = s.len() - i;
    if 8 <= n {
        return eight(s, i);
    }
    let mut w: u64 = 0;
    for j in 0..n {
        w += u64::from(s[i + j]) << (8 * j);
    }
    w
}
