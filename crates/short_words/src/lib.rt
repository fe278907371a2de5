// Implements document 01, "One word", steps 3 and 4, for the words that most payloads hold: a prefix
// of at most 15 ones, code and sign, all out of 64 bits that stand in a register. Any other word is
// left to the crate words, whose definition is met by both.
//
// What must be fast hangs on branches. A count of 0 or 1 is tested for, since the medians make a 0
// come five times in seven; what is as random as a coin is chosen (`code_reading`). Each way adapts
// the medians by a count that the compiler knows.

#![tactic(auto)]

ghost use Rattle.std.specs.Prelude.{◌≡◌, true, false};
ghost use Rattle.entropy.specs.Medians.{medians_of};
ghost use Rattle.short_words.specs.Short.{ShortPrefix, ShortWordIs, CountedIs, WordIs};

use entropy::AdaptiveMedians;
use medians::adaptation::adapt;
use medians::interval::{SampleInterval, sample_interval};
use word_state::zero_run_eligible;
use words::coded::signed_code;

// A word out of the 64 bits at its place: its sample, the bits that it takes, and the medians and
// flags after it. `on` is false where a run length may stand behind it: all else is told then, too.
#[derive(Clone, Copy)]
pub struct ShortWord {
    pub on: bool,
    pub value: i32,
    pub used: usize,
    pub medians: AdaptiveMedians,
    pub last_zero: bool,
    pub last_one: bool,
}

// The word behind an announced zero.
fn announced_word(
    w: u64,
    medians: AdaptiveMedians,
    other: AdaptiveMedians,
    last_one: bool,
) -> ShortWord
    ensures { ShortWordIs w (medians_of medians) (medians_of other) true last_one result }
{
    let interval = sample_interval(medians, 0);
    let low = interval.low;
    let got = signed_code(w, low, interval.high - low);
    let after = adapt(medians, 0);
    let last_zero = false;
    ShortWord {
        on: !zero_run_eligible(after, other, false, last_zero, last_one),
        value: got.value,
        used: got.used,
        medians: after,
        last_zero,
        last_one,
    }
}

// A word with a prefix of `ones` ones, in the interval of its count; `after` has the medians after it.
fn counted_word(w: u64, ones: u32, interval: SampleInterval, after: AdaptiveMedians) -> ShortWord
    requires { ShortPrefix w ones interval.low interval.high }
    ensures { CountedIs w ones interval.low interval.high after result }
{
    let low = interval.low;
    let got = signed_code((w >> 1) >> ones, low, interval.high - low);
    ShortWord {
        on: true,
        value: got.value,
        used: got.used + ones as usize + 1,
        medians: after,
        last_zero: ones % 2 == 0,
        last_one: ones % 2 == 1,
    }
}

// The word of a channel, None where another reader has to read it: with the medians of the other channel,
// for whether a run length may follow. The channel is a parameter of the function, and not of a call, so
// that each of the two functions that come of it has one caller: a function of this size is laid into its
// caller only where it has no other.
pub fn short_word<const CHANNEL: usize>(
    w: u64,
    medians: AdaptiveMedians,
    other: AdaptiveMedians,
    last_zero: bool,
    last_one: bool,
) -> Option<ShortWord>
    ensures { WordIs w (medians_of medians) (medians_of other) last_zero last_one result }
{
    if last_zero {
        return Some(announced_word(w, medians, other, last_one));
    }
    if w % 4 != 3 {
        let few = (w % 2) as u32;
        if last_one {
            return Some(counted_word(w, few, sample_interval(medians, 1), adapt(medians, 1)));
        }
        return Some(counted_word(w, few, sample_interval(medians, 0), adapt(medians, 0)));
    }
    let ones = u64::trailing_zeros(!w);
    if ones > 15 {
        return None;
    }
    let count = ones / 2 + u32::from(last_one);
    Some(counted_word(
        w,
        ones,
        sample_interval(medians, count),
        adapt(medians, count),
    ))
}
