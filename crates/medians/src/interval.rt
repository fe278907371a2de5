// Implements document 01, "One word", the interval of a count.
ghost use Rattle.std.specs.Prelude.{◌≡◌, ◌+◌, ◌-◌, ◌≤◌, ◌<◌, max};
ghost use Rattle.answers.specs.Limits.{max_width};
ghost use Rattle.entropy.specs.Medians.{medians_of};
ghost use Rattle.medians.specs.Interval.{g, wrapped, IntervalIs};

use entropy::AdaptiveMedians;

// The interval of a count: its first and its last number.
#[derive(Clone, Copy)]
pub struct SampleInterval {
    pub low: u32,
    pub high: u32,
}

// The width that a median gives to its interval.
fn get_med(median: u32) -> u64
    ensures is { result ≡ g median }
    ensures some { 0 < result }
    ensures most { result ≤ max_width }
{
    u64::from(median) / 16 + 1
}

// The interval of `width` numbers from `base` on, cut to 31 bits.
fn cut(base: u64, width: u64) -> SampleInterval
    requires base { base < 2305843009213693952 }
    requires some { 0 < width }
    requires most { width ≤ max_width }
    ensures low { result.low ≡ wrapped base }
    ensures high { result.high ≡ max (wrapped base) (wrapped (base + width - 1)) }
{
    let low = (base % 2147483648) as u32;
    let high = ((base + width - 1) % 2147483648) as u32;
    SampleInterval {
        low,
        high: high.max(low),
    }
}

// The interval of the count `ones_count`. Refuses nothing.
pub fn sample_interval(medians: AdaptiveMedians, ones_count: u32) -> SampleInterval
    ensures { IntervalIs (medians_of medians) ones_count result.low result.high }
{
    let [first, second, third] = medians.values;
    match ones_count {
        0 => cut(0, get_med(first)),
        1 => cut(get_med(first), get_med(second)),
        _ => {
            let width = get_med(third);
            let base = get_med(first) + get_med(second) + u64::from(ones_count - 2) * width;
            cut(base, width)
        }
    }
}
