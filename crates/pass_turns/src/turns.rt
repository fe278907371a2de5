// One channel's step in either direction, and what the loops put together after it.
ghost use Rattle.std.specs.Prelude.{◌≡◌};
ghost use Rattle.pass_turns.specs.Turns.{turned, lag_at};

use passes::{DecorrPass, Direction};
use weights::{residual_of, sample_of, update_weight, update_weight_clip, update_weight_clip_late};

// What a step leaves of one channel: the weight, the buffer's element, and the sample.
#[derive(Clone, Copy)]
pub struct Turned {
    pub weight: i32,
    pub element: i32,
    pub sample: i32,
}

// One channel's step at the buffer's element x: `CLIP` for a cross term. It is no argument, since a
// test in the loop is slower.
// The direction stays one: a const parameter can be no enum, and a `bool` in its place is no plainer.
// The compiler takes its test out of the loops of lags and of 17 and 18. It leaves it in those of the
// cross terms; tried without it there, decorrelation by -2 was slower.
pub fn turn<const CLIP: bool>(
    direction: Direction,
    weight: i32,
    delta: i32,
    source: i32,
    x: i32,
) -> Turned
    ensures { result ≡ turned direction CLIP weight delta source x }
{
    match direction {
        Direction::Decorrelation => {
            let sample = sample_of(weight, source, x);
            let weight = if CLIP {
                update_weight_clip(weight, delta, source, x)
            } else {
                update_weight(weight, delta, source, x)
            };
            Turned {
                weight,
                element: sample,
                sample,
            }
        }
        Direction::Analysis => {
            let res = residual_of(weight, source, x);
            let weight = if CLIP {
                update_weight_clip_late(weight, delta, res, source)
            } else {
                update_weight(weight, delta, res, source)
            };
            Turned {
                weight,
                element: res,
                sample: x,
            }
        }
    }
}

// A pass with other weights and histories.
pub fn with_state(
    pass: DecorrPass,
    weight_a: i32,
    weight_b: i32,
    history_a: [i32; 8],
    history_b: [i32; 8],
) -> DecorrPass
    ensures { result ≡ lag_at pass weight_a weight_b history_a history_b }
{
    DecorrPass {
        weight_a,
        weight_b,
        history_a,
        history_b,
        ..pass
    }
}
