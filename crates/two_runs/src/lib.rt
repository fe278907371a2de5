// Implements document 01, "Passes": terms 17 and 18 over a whole buffer.

#![tactic(auto)]

ghost use Rattle.std.specs.Prelude.{◌≡◌};
ghost use Rattle.passes.specs.Run.{run, turn};
ghost use Rattle.two_runs.specs.Two.{two_term, two_source, last_two, two_at};

use pass_turns::{frame_at, store_frame, turn, with_state};
use passes::{DecorrPass, Direction};

// The last two samples of a channel.
#[derive(Clone, Copy)]
pub struct LastTwo {
    pub last: i32,
    pub before: i32,
}

// The source of term 18, or of 17.
fn two_source<const EIGHTEEN: bool>(last: i32, before: i32) -> i32
    ensures { result ≡ two_source EIGHTEEN last before }
{
    if EIGHTEEN {
        weights::source_18(last, before)
    } else {
        weights::source_17(last, before)
    }
}

// The last two samples that a history holds.
fn last_two(history: [i32; 8]) -> LastTwo
    ensures { result ≡ last_two history }
{
    LastTwo {
        last: history[0],
        before: history[1],
    }
}

// A pass with other weights, and the last two samples of each channel in its histories.
fn with_last_two(
    pass: DecorrPass,
    weight_a: i32,
    weight_b: i32,
    a0: i32,
    a1: i32,
    b0: i32,
    b1: i32,
) -> DecorrPass
    ensures { result ≡ two_at pass weight_a weight_b a0 a1 b0 b1 }
{
    let mut history_a = pass.history_a;
    let mut history_b = pass.history_b;
    history_a[0] = a0;
    history_a[1] = a1;
    history_b[0] = b0;
    history_b[1] = b1;
    with_state(pass, weight_a, weight_b, history_a, history_b)
}

// Terms 17 and 18: both channels from their own last two samples.
pub fn run_two<const EIGHTEEN: bool>(
    direction: Direction,
    start: DecorrPass,
    buffer: &mut [i32],
) -> DecorrPass
    ensures { record { pass = result; buffer = buffer.new }
        ≡ run (turn direction (two_term EIGHTEEN)) start 0 buffer.old }
{
    let delta = start.delta;
    let mut weight_a = start.weight_a;
    let mut weight_b = start.weight_b;
    let history_a = start.history_a;
    let history_b = start.history_b;
    let held_a = last_two(history_a);
    let held_b = last_two(history_b);
    let mut a0 = held_a.last;
    let mut a1 = held_a.before;
    let mut b0 = held_b.last;
    let mut b1 = held_b.before;
    let mut i: usize = 0;
    // No `for` over the frames: the machine code of this form is the faster one.
    while buffer.len() - i > 1 {
        let frame = frame_at(buffer, i);
        let source_a = two_source::<EIGHTEEN>(a0, a1);
        let source_b = two_source::<EIGHTEEN>(b0, b1);
        let a = turn::<false>(direction, weight_a, delta, source_a, frame.a);
        let b = turn::<false>(direction, weight_b, delta, source_b, frame.b);
        store_frame(buffer, i, a.element, b.element);
        weight_a = a.weight;
        weight_b = b.weight;
        a1 = a0;
        b1 = b0;
        a0 = a.sample;
        b0 = b.sample;
        i += 2;
    }
    with_last_two(start, weight_a, weight_b, a0, a1, b0, b1)
}
