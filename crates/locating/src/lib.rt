// Where a residual lies: its smallest count by a closed form, its code in that count's interval,
// and the medians after it, all found by one walk past the intervals. Residuals are in the span, so
// no end of an interval that holds one meets the 31-bit mask. And whether the count of the next
// residual is above 0 (document 01, "Packing", K3, K5).

#![tactic(auto)]

ghost use Rattle.std.specs.Prelude.{◌≡◌, ◌<◌, drop};
ghost use Rattle.answers.specs.Limits.{residual_span};
ghost use Rattle.entropy.specs.Medians.{medians_of, Small};
ghost use Rattle.word_bits.specs.Residuals.{sign, ahead};
ghost use Rattle.word_bits.specs.View.{AboveIs, LocatedIs};

use entropy::AdaptiveMedians;
use medians::adaptation::{dec_median, inc_median};
use spans::magnitude;
use word_bits::Located;

// The sign bit of a residual.
pub fn sign_bit(residual: i32) -> u32
    ensures { result ≡ sign residual }
{
    u32::from(residual < 0)
}

// Where a magnitude lies that is `rest` past the first two intervals, `m0` and `m1` being the first
// two medians after it and `c` the third before.
fn locate_above(rest: u32, m0: u32, m1: u32, c: u32) -> Located
    requires { rest < residual_span }
    ensures { AboveIs rest m0 m1 c result }
{
    let third = c / 16 + 1;
    let last = third - 1;
    if rest < third {
        let m2 = dec_median(c, 32);
        return Located {
            count: 2,
            code: rest,
            last,
            medians: AdaptiveMedians {
                values: [m0, m1, m2],
            },
        };
    }
    let m2 = inc_median(c, 32);
    Located {
        count: rest / third + 2,
        code: rest % third,
        last,
        medians: AdaptiveMedians {
            values: [m0, m1, m2],
        },
    }
}

// Where a magnitude lies among the intervals of a set of medians.
pub fn locate(medians: AdaptiveMedians, magnitude: u32) -> Located
    requires medians { Small (medians_of medians) }
    requires span { magnitude < residual_span }
    ensures { LocatedIs (medians_of medians) magnitude result }
{
    let [a, b, c] = medians.values;
    let first = a / 16 + 1;
    if magnitude < first {
        let m0 = dec_median(a, 128);
        return Located {
            count: 0,
            code: magnitude,
            last: first - 1,
            medians: AdaptiveMedians { values: [m0, b, c] },
        };
    }
    let past = magnitude - first;
    let second = b / 16 + 1;
    let m0 = inc_median(a, 128);
    if past < second {
        let m1 = dec_median(b, 64);
        return Located {
            count: 1,
            code: past,
            last: second - 1,
            medians: AdaptiveMedians {
                values: [m0, m1, c],
            },
        };
    }
    locate_above(past - second, m0, inc_median(b, 64), c)
}

// Whether a next residual is there and its count is above 0, `medians` being those that are due
// then.
pub fn is_ahead(medians: AdaptiveMedians, residuals: &[i32], next: usize) -> bool
    requires { Small (medians_of medians) }
    ensures { result ≡ ahead (medians_of medians) (drop next residuals.now) }
{
    next < residuals.len() && medians.values[0] / 16 < magnitude(residuals[next])
}
