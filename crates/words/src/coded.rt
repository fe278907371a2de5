// Implements document 01, "One word", steps 2 to 4, from numbers alone: the payload, the place, the
// medians due and the two flags. No part hands a whole state on, which would cost more than the
// reading itself; and each part is called at one place of the next.
ghost use Rattle.std.specs.Prelude.{◌≡◌, ◌+◌, ◌%◌, ◌≤◌, ◌<◌, length};
ghost use Rattle.answers.specs.Limits.{max_payload_bytes, max_width};
ghost use Rattle.bits.specs.Bits.{bits_of, val, bit_of};
ghost use Rattle.entropy.specs.Medians.{medians_of};
ghost use Rattle.words.specs.Word.{signed};
ghost use Rattle.words.specs.Parts.{SignedCodeIs, ValueIs, CountIs, PlainIs, ZeroRunIs, CodedIs};

use answers::Refusal;
use bit_reading::get_bit;
use bit_windows::load::eight;
use code_reading::{code_in_window, read_truncated_binary};
use count_reading::{read_raw_prefix, read_zero_run_length};
use entropy::AdaptiveMedians;
use medians::interval::sample_interval;

// A sample, and the bits that its code and its sign take.
#[derive(Clone, Copy)]
pub struct SignedCode {
    pub value: i32,
    pub used: usize,
}

// A count, the place after it, and last_zero and last_one after it.
#[derive(Clone, Copy)]
pub struct Count {
    pub ones_count: u32,
    pub place: usize,
    pub last_zero: bool,
    pub last_one: bool,
}

// A run with the zeros owed after its first and the place after its length; or the place of a word.
#[derive(Clone, Copy)]
pub enum ZeroRun {
    Run { owed: u32, next: usize },
    Word { place: usize },
}

// A run as above; or a sample, its count, the place after it, and last_zero and last_one after it.
#[derive(Clone, Copy)]
pub enum Coded {
    Run {
        owed: u32,
        next: usize,
    },
    Sample {
        value: i32,
        ones_count: u32,
        next: usize,
        last_zero: bool,
        last_one: bool,
    },
}

// A magnitude, or with the sign bit its complement.
pub fn apply_sign(magnitude: u32, sign: u32) -> i32
    requires { magnitude < 2147483648 }
    ensures { result ≡ signed sign magnitude }
{
    let x = magnitude as i32;
    if sign == 0 { x } else { -1 - x }
}

// Code and sign at the start of a window, in the interval of `last` + 1 numbers from `low` on.
pub fn signed_code(v: u64, low: u32, last: u32) -> SignedCode
    requires interval { low + last < 2147483648 }
    requires last { last < max_width }
    ensures { SignedCodeIs v low last result.value result.used }
{
    let got = code_in_window(v, last);
    let sign = ((v >> got.used) % 2) as u32;
    SignedCode {
        value: apply_sign(low + got.code, sign),
        used: got.used as usize + 1,
    }
}

// Step 4: code and sign in the interval of the count, which is formed before the medians adapt. Out
// of a window where eight bytes are left.
fn decode_signed_value(
    payload: &[u8],
    place: usize,
    medians: AdaptiveMedians,
    ones_count: u32,
) -> Option<(i32, usize)>
    requires { length payload.now ≤ max_payload_bytes }
    ensures { ValueIs (bits_of payload.now) place (medians_of medians) ones_count result }
{
    let interval = sample_interval(medians, ones_count);
    let low = interval.low;
    if place / 8 + 8 <= payload.len() {
        let got = signed_code(
            eight(payload, place / 8) >> (place % 8),
            low,
            interval.high - low,
        );
        return Some((got.value, place + got.used));
    }
    let (code, next) = read_truncated_binary(payload, place, interval.high - low)?;
    let (sign, after) = get_bit(payload, next)?;
    Some((apply_sign(low + code, sign), after))
}

// Step 3: the count of a word, folded with the flags that the word before it left, and the flags
// after it.
fn read_folded_ones_count(
    payload: &[u8],
    place: usize,
    last_zero: bool,
    last_one: bool,
) -> Result<Count, Refusal>
    requires { length payload.now ≤ max_payload_bytes }
    ensures { CountIs (bits_of payload.now) place last_zero last_one result }
{
    if last_zero {
        let announced = Count {
            ones_count: 0,
            place,
            last_zero: false,
            last_one,
        };
        return Ok(announced);
    }
    let (raw, next) = read_raw_prefix(payload, place)?;
    let odd = raw % 2 == 1;
    Ok(Count {
        ones_count: raw / 2 + u32::from(last_one),
        place: next,
        last_zero: !odd,
        last_one: odd,
    })
}

// Step 2, where `eligible` tells whether a run length is read.
fn try_zero_run_path_stereo(
    payload: &[u8],
    place: usize,
    eligible: bool,
) -> Result<ZeroRun, Refusal>
    requires { length payload.now ≤ max_payload_bytes }
    ensures { ZeroRunIs (bits_of payload.now) place eligible result }
{
    if !eligible {
        return Ok(ZeroRun::Word { place });
    }
    let (run, next) = read_zero_run_length(payload, place).ok_or(Refusal::Truncated)?;
    if run == 0 {
        return Ok(ZeroRun::Word { place: next });
    }
    Ok(ZeroRun::Run {
        owed: run - 1,
        next,
    })
}

// Steps 3 and 4: a word outside a run.
fn read_coded(
    payload: &[u8],
    place: usize,
    medians: AdaptiveMedians,
    last_zero: bool,
    last_one: bool,
) -> Result<Coded, Refusal>
    requires { length payload.now ≤ max_payload_bytes }
    ensures { PlainIs (bits_of payload.now) place
        (medians_of medians) last_zero last_one result }
{
    let count = read_folded_ones_count(payload, place, last_zero, last_one)?;
    let (value, next) = decode_signed_value(payload, count.place, medians, count.ones_count).ok_or(
        Refusal::Truncated,
    )?;
    Ok(Coded::Sample {
        value,
        ones_count: count.ones_count,
        next,
        last_zero: count.last_zero,
        last_one: count.last_one,
    })
}

// Steps 2 to 4: a word where no zero is owed.
pub fn read_word(
    payload: &[u8],
    place: usize,
    eligible: bool,
    medians: AdaptiveMedians,
    last_zero: bool,
    last_one: bool,
) -> Result<Coded, Refusal>
    requires { length payload.now ≤ max_payload_bytes }
    ensures { CodedIs (bits_of payload.now) place eligible
        (medians_of medians) last_zero last_one result }
{
    match try_zero_run_path_stereo(payload, place, eligible)? {
        ZeroRun::Run { owed, next } => Ok(Coded::Run { owed, next }),
        ZeroRun::Word { place: next } => read_coded(payload, next, medians, last_zero, last_one),
    }
}
