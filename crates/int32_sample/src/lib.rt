// Implements document 02 §6 for one sample, after int32.rs: bits put in below a sample and taken out
// again. All shifts are by at most 31.

#![tactic(auto)]

ghost use Rattle.std.specs.Prelude.{◌≡◌, cond, ◌^◌, ◌≤◌, ◌<◌, eqb};
ghost use Rattle.int32_sample.specs.Sample.{below, low_bits, above};
ghost use Rattle.int32_sample.specs.Setting.{setting, all_ones, width, even_bits, odd_bits};

// How many bits a recording's fields put in below each sample: zeros, ones or copies of its lowest bit, the
// first of the three that is not 0. Three numbers and no enum of three cases: the fields of a file and of
// the C interface are these three.
#[derive(Clone, Copy)]
pub struct RedundantBits {
    pub zeros: u32,
    pub ones: u32,
    pub dups: u32,
    pub ghost few_zeros: { zeros ≤ 31 },
    pub ghost few_ones: { ones ≤ 31 },
    pub ghost few_dups: { dups ≤ 31 },
}

// Which bits are put in below a sample, and how many: below an even sample, and below an odd one.
#[derive(Clone, Copy)]
pub struct Redundancy {
    pub count: u32,
    pub even: u32,
    pub odd: u32,
}

// `count` ones, as a number.
pub fn low_bits_mask(count: u32) -> u32
    requires { count ≤ 31 }
    ensures { result ≡ all_ones count }
{
    (1 << count) - 1
}

// x shifted left by `count` and kept to 32 bits, with the bits of n below it.
pub fn put_below(x: i32, count: u32, n: u32) -> i32
    requires count { count ≤ 31 }
    requires number { n < 2 ^ count }
    ensures { result ≡ below count n x }
{
    (x << count) | n as i32
}

// The low bits of x.
pub fn low_bits(x: i32, count: u32) -> u32
    requires { count ≤ 31 }
    ensures { result ≡ low_bits count x }
{
    (x & low_bits_mask(count) as i32) as u32
}

// x shifted right, which keeps the sign.
pub fn shifted(x: i32, count: u32) -> i32
    requires { count ≤ 31 }
    ensures { result ≡ above count x }
{
    x >> count
}

// What the redundancy setting puts in: zeros, ones or copies of the lowest bit, the first of the
// three that is not 0.
pub fn redundancy_of(bits: RedundantBits) -> Redundancy
    ensures { let s = setting bits.zeros bits.ones bits.dups in
        result ≡ record { count = width s; even = even_bits s; odd = odd_bits s } }
{
    if bits.zeros > 0 {
        return Redundancy {
            count: bits.zeros,
            even: 0,
            odd: 0,
        };
    }
    if bits.ones > 0 {
        let mask = low_bits_mask(bits.ones);
        return Redundancy {
            count: bits.ones,
            even: mask,
            odd: mask,
        };
    }
    Redundancy {
        count: bits.dups,
        even: 0,
        odd: low_bits_mask(bits.dups),
    }
}

// The bits that belong below a sample.
pub fn bits_below(x: i32, even: u32, odd: u32) -> u32
    ensures { result ≡ cond (eqb (low_bits 1 x) 0) even odd }
{
    if low_bits(x, 1) == 0 { even } else { odd }
}
