// The fields of a word, written (document 01, "Packing": K2, K6). Code and sign, and a prefix below 16
// in front of them, are gathered in one number, low bit first; run lengths and escaped prefixes are
// rare, and are laid field by field.

#![tactic(auto)]

ghost use Rattle.std.specs.Prelude.{◌≡◌, ◌++◌, ◌+◌, ◌-◌, ◌*◌, ◌^◌, ◌≤◌, ◌<◌, length};
ghost use Rattle.answers.specs.Limits.{max_width};
ghost use Rattle.bits.specs.Bits.{low, num};
ghost use Rattle.bits.specs.Fields.{unary_field};
ghost use Rattle.bits.specs.Laid.{put};
ghost use Rattle.fields.specs.Written.{run_field, prefix_field, code_bits, code_field};
ghost use Rattle.fields.specs.Gathered.{Gathers};

use bit_laying::{put_bits, put_unary};
use fields::{Gathered, bit_length};

// The bits of a code as a number, where a code below `extras` has `digits` bits and any other one
// more.
fn code_value(code: u32, extras: u32, digits: usize) -> u32
    requires digits { digits ≤ 27 }
    requires extras { extras ≤ 2 ^ digits }
    requires code { code + extras < 2 * 2 ^ digits }
    ensures { result ≡ num (code_bits (digits + 1) extras code) }
{
    if code < extras {
        code
    } else {
        (code + extras) / 2 + ((code + extras) % 2 << digits)
    }
}

// How many bits they are.
fn code_count(code: u32, extras: u32, digits: usize) -> usize
    requires { digits ≤ 27 }
    ensures { result ≡ length (code_bits (digits + 1) extras code) }
{
    if code < extras { digits } else { digits + 1 }
}

// A code inside an interval whose last code is `last`, and a sign bit. An interval of one code is
// taken as one whose codes below 1 have no bits.
pub fn gather_code(code: u32, last: u32, sign: u32) -> Gathered
    requires code { code ≤ last }
    requires last { last < max_width }
    requires sign { sign < 2 }
    ensures { Gathers (code_field last code ++ low 1 sign) result }
{
    let digits = (bit_length(last / 2 * 2 + 1) - 1) as usize;
    let extras = (2 << digits) - last - 1;
    let value = code_value(code, extras, digits);
    let count = code_count(code, extras, digits);
    Gathered {
        value: u64::from(value) + (u64::from(sign) << count),
        count: count + 1,
    }
}

// `ones` ones and a zero in front of a word's other bits.
pub fn gather_ones(ones: u32, rest: Gathered) -> Gathered
    requires ones { ones < 16 }
    requires count { rest.count ≤ 29 }
    requires value { rest.value < 2 ^ rest.count }
    ensures { Gathers (unary_field ones ++ low rest.count rest.value) result }
{
    let count = ones as usize + 1;
    Gathered {
        value: (1 << ones) - 1 + (rest.value << count),
        count: count + rest.count,
    }
}

// A run length, from `at` on. The place after it.
pub fn put_run(out: &mut [u8], at: usize, run: u32) -> usize
    requires room { at + length (run_field run) ≤ 8 * length out.old }
    requires place { at ≤ 100 }
    ensures buffer { out.new ≡ put out.old at (run_field run) }
    ensures place { result ≡ at + length (run_field run) }
{
    if run < 2 {
        return put_unary(out, at, run);
    }
    let length = bit_length(run);
    let next = put_unary(out, at, length);
    put_bits(out, next, run, length - 1);
    next + (length - 1) as usize
}

// A prefix of 16 or more, from `at` on: exactly 16 ones to escape. The place after it.
pub fn put_escaped(out: &mut [u8], at: usize, prefix: u32) -> usize
    requires room { at + length (prefix_field prefix) ≤ 8 * length out.old }
    requires place { at ≤ 80 }
    requires prefix { 16 ≤ prefix }
    ensures buffer { out.new ≡ put out.old at (prefix_field prefix) }
    ensures place { result ≡ at + length (prefix_field prefix) }
{
    let next = put_unary(out, at, 16);
    put_run(out, next, prefix - 16)
}
