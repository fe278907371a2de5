// Implements document 01, "Passes": the fixed lags over a whole buffer.
//
// In decorrelation the sample that is looked back at stands in the buffer already, so
// no ring is kept along the way; what the ring would hold is put together at the end. A lag of 1
// stays with the ring: there the sample was stored a moment ago, and a load of it waits for that.

#![tactic(auto)]

ghost use Rattle.std.specs.Prelude.{◌≡◌, ◌+◌, ◌≤◌, ◌<◌, length};
ghost use Rattle.passes.specs.Run.{run, turn};
ghost use Rattle.passes.specs.declared.Direction.TheVariants.{Decorrelation};
ghost use Rattle.passes.specs.declared.Term.TheVariants.{Lag};
ghost use Rattle.lag_runs.specs.Lookback.{looked_back, BackIs, BehindIs};

use lag_ring::run_ring;
use pass_turns::{Frame, frame_at, store_frame, turn, with_state};
use passes::{DecorrPass, Direction};

// The weights of both channels.
#[derive(Clone, Copy)]
pub struct Weights {
    pub a: i32,
    pub b: i32,
}

// The samples `lag` frames before the frame whose first element is i: in the first frames those that
// the pass held.
fn looked_back(start: DecorrPass, lag: usize, buffer: &[i32], i: usize) -> Frame
    requires lag { lag ≤ 8 }
    requires inside { i + 1 < length buffer.now }
    ensures { result ≡ looked_back start lag buffer.now i }
{
    if i < 2 * lag {
        let history_a = start.history_a;
        let history_b = start.history_b;
        let slot = i / 2;
        return Frame {
            a: history_a[slot],
            b: history_b[slot],
        };
    }
    frame_at(buffer, i - 2 * lag)
}

// A fixed lag over a buffer: the weights after it.
fn run_back(lag: usize, start: DecorrPass, buffer: &mut [i32]) -> Weights
    requires some { 0 < lag }
    requires most { lag ≤ 8 }
    ensures { BackIs lag start buffer.old buffer.new result }
{
    let delta = start.delta;
    let mut weight_a = start.weight_a;
    let mut weight_b = start.weight_b;
    let mut i: usize = 0;
    // No `for` over the frames: the machine code of this form is the faster one.
    while buffer.len() - i > 1 {
        let frame = frame_at(buffer, i);
        let source = looked_back(start, lag, buffer, i);
        let a = turn::<false>(Direction::Decorrelation, weight_a, delta, source.a, frame.a);
        let b = turn::<false>(Direction::Decorrelation, weight_b, delta, source.b, frame.b);
        store_frame(buffer, i, a.element, b.element);
        weight_a = a.weight;
        weight_b = b.weight;
        i += 2;
    }
    Weights {
        a: weight_a,
        b: weight_b,
    }
}

// The pass after a buffer of at least eight frames: its ring holds the last eight samples.
fn ring_behind(lag: usize, start: DecorrPass, weights: Weights, buffer: &[i32]) -> DecorrPass
    requires most { lag ≤ 8 }
    requires eight { 16 ≤ length buffer.now }
    ensures { BehindIs lag start weights.a weights.b buffer.now result }
{
    let mut history_a = start.history_a;
    let mut history_b = start.history_b;
    let frames = buffer.len() / 2;
    for k in frames - 8..frames {
        let frame = frame_at(buffer, 2 * k);
        let slot = (k % 8 + lag % 8) % 8;
        history_a[slot] = frame.a;
        history_b[slot] = frame.b;
    }
    with_state(start, weights.a, weights.b, history_a, history_b)
}

// A fixed lag in decorrelation.
fn decorrelate_lag(lag: usize, start: DecorrPass, buffer: &mut [i32]) -> DecorrPass
    ensures { record { pass = result; buffer = buffer.new }
        ≡ run (turn Decorrelation (Lag lag)) start 0 buffer.old }
{
    if lag < 2 || lag > 8 || buffer.len() < 16 {
        return run_ring(Direction::Decorrelation, lag, start, buffer);
    }
    let weights = run_back(lag, start, buffer);
    ring_behind(lag, start, weights, buffer)
}

// A fixed lag.
pub fn run_lag(
    direction: Direction,
    lag: usize,
    start: DecorrPass,
    buffer: &mut [i32],
) -> DecorrPass
    ensures { record { pass = result; buffer = buffer.new }
        ≡ run (turn direction (Lag lag)) start 0 buffer.old }
{
    match direction {
        Direction::Decorrelation => decorrelate_lag(lag, start, buffer),
        Direction::Analysis => run_ring(Direction::Analysis, lag, start, buffer),
    }
}
