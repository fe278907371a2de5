// Implements document 01, "Packing" (K7, K8): fields laid into a lent buffer. The bits before the
// place stay, the spare bits of the last byte that is touched become 0, the bytes behind stay.
// `put_bits` and `put_unary` write into the rest of a buffer from its first unfinished byte on, so
// their places are small; `lay_bits` lends that rest on.

#![tactic(auto)]

ghost use Rattle.std.specs.Prelude.{◌≡◌, ◌+◌, ◌*◌, ◌/◌, ◌%◌, ◌^◌, ◌≤◌, ◌<◌, length};
ghost use Rattle.bits.specs.Bits.{low};
ghost use Rattle.bits.specs.Fields.{unary_field};
ghost use Rattle.bits.specs.Laid.{put};

// A byte with its k low bits as they are, then the m low bits of v, then zeros.
fn join(c: u8, k: u32, v: u32, m: u32) -> u8
    requires { k + m ≤ 8 }
    ensures { result ≡ c % 2 ^ k + v % 2 ^ m * 2 ^ k }
{
    let old = u32::from(c) % (1 << k);
    let x = v % (1 << m);
    (old + (x << k)) as u8
}

// The m low bits of v, into the one byte where `at` lies.
fn put_chunk(out: &mut [u8], at: usize, v: u32, m: u32)
    requires inside { at / 8 < length out.old }
    requires within { (0 < m) × (at % 8 + m ≤ 8) }
    ensures { out.new ≡ put out.old at (low m v) }
{
    let i = at / 8;
    out[i] = join(out[i], (at % 8) as u32, v, m);
}

// Lays the `count` low bits of v from `at` on.
pub fn put_bits(out: &mut [u8], at: usize, v: u32, count: u32)
    requires room { at + count ≤ 8 * length out.old }
    requires place { at ≤ 255 }
    requires width { count ≤ 32 }
    ensures { out.new ≡ put out.old at (low count v) }
{
    let mut i: u32 = 0;
    let mut p = at;
    while i < count {
        let m = (count - i).min(8 - (p % 8) as u32);
        put_chunk(out, p, v >> i, m);
        i += m;
        p += m as usize;
    }
}

// Lays c ones and a zero from `at` on, and answers the place after them.
pub fn put_unary(out: &mut [u8], at: usize, c: u32) -> usize
    requires room { at + length (unary_field c) ≤ 8 * length out.old }
    requires place { at ≤ 200 }
    requires count { c ≤ 32 }
    ensures buffer { out.new ≡ put out.old at (unary_field c) }
    ensures next { result ≡ at + length (unary_field c) }
{
    put_bits(out, at, u32::MAX, c);
    let p = at + c as usize;
    put_bits(out, p, 0, 1);
    p + 1
}

// Lays the `count` low bits of v from any place of a buffer on, and answers the place after them.
// The rest of the buffer, from the first unfinished byte, is lent on.
pub fn lay_bits(out: &mut [u8], at: usize, v: u32, count: u32) -> usize
    requires room { at + count ≤ 8 * length out.old }
    requires place { at ≤ 1073741824 }
    requires width { count ≤ 32 }
    ensures buffer { out.new ≡ put out.old at (low count v) }
    ensures next { result ≡ at + count }
{
    let a = at / 8;
    put_bits(&mut out[a..], at % 8, v, count);
    at + count as usize
}
