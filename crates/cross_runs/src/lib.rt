// Implements document 01, "Passes": the cross terms -1, -2 and -3 over a whole buffer.

#![tactic(auto)]

ghost use Rattle.std.specs.Prelude.{◌≡◌, cond};
ghost use Rattle.passes.specs.Step.{slot};
ghost use Rattle.passes.specs.Run.{run, turn};
ghost use Rattle.passes.specs.declared.Term.TheVariants.{MinusThree};
ghost use Rattle.cross_runs.specs.Cross.{cross_term, cross_at, swap_at};

use pass_turns::{frame_at, store_frame, turn, with_state};
use passes::{DecorrPass, Direction};

// y where `second` is set, else x. An `if` in the loop is no plainer: it stands there six times.
fn either(second: bool, x: i32, y: i32) -> i32
    ensures { result ≡ cond second y x }
{
    if second { y } else { x }
}

// The last sample that a history holds.
fn last_of(history: [i32; 8]) -> i32
    ensures { result ≡ slot history 0 }
{
    history[0]
}

// The pass after the loop of -1 and -2.
fn with_cross(pass: DecorrPass, second: bool, weight: i32, other: i32, last: i32) -> DecorrPass
    ensures { result ≡ cross_at second pass weight other last }
{
    let mut history_a = pass.history_a;
    let mut history_b = pass.history_b;
    let last_a = either(second, last, history_a[0]);
    let last_b = either(second, history_b[0], last);
    history_a[0] = last_a;
    history_b[0] = last_b;
    let weight_a = either(second, weight, other);
    let weight_b = either(second, other, weight);
    with_state(pass, weight_a, weight_b, history_a, history_b)
}

// The pass after the loop of -3.
fn with_swap(pass: DecorrPass, weight_a: i32, weight_b: i32, last_a: i32, last_b: i32) -> DecorrPass
    ensures { result ≡ swap_at pass weight_a weight_b last_a last_b }
{
    let mut history_a = pass.history_a;
    let mut history_b = pass.history_b;
    history_a[0] = last_a;
    history_b[0] = last_b;
    with_state(pass, weight_a, weight_b, history_a, history_b)
}

// Terms -1 and -2: one channel from the last sample of the other, the other from this frame's. For
// -2 the channels change places where they are read and written.
// `second` is an argument: tried as a const parameter, analysis was slower.
pub fn run_cross(
    direction: Direction,
    second: bool,
    start: DecorrPass,
    buffer: &mut [i32],
) -> DecorrPass
    ensures { record { pass = result; buffer = buffer.new }
        ≡ run (turn direction (cross_term second)) start 0 buffer.old }
{
    let delta = start.delta;
    let held_a = last_of(start.history_a);
    let held_b = last_of(start.history_b);
    let mut weight = either(second, start.weight_a, start.weight_b);
    let mut other = either(second, start.weight_b, start.weight_a);
    let mut last = either(second, held_a, held_b);
    for k in 0..buffer.len() / 2 {
        let frame = frame_at(buffer, 2 * k);
        let in_one = either(second, frame.a, frame.b);
        let in_two = either(second, frame.b, frame.a);
        let one = turn::<true>(direction, weight, delta, last, in_one);
        let two = turn::<true>(direction, other, delta, one.sample, in_two);
        let out_a = either(second, one.element, two.element);
        let out_b = either(second, two.element, one.element);
        store_frame(buffer, 2 * k, out_a, out_b);
        weight = one.weight;
        other = two.weight;
        last = two.sample;
    }
    with_cross(start, second, weight, other, last)
}

// Term -3: each channel from the last sample of the other.
pub fn run_swap(direction: Direction, start: DecorrPass, buffer: &mut [i32]) -> DecorrPass
    ensures { record { pass = result; buffer = buffer.new }
        ≡ run (turn direction MinusThree) start 0 buffer.old }
{
    let delta = start.delta;
    let history_a = start.history_a;
    let history_b = start.history_b;
    let mut weight_a = start.weight_a;
    let mut weight_b = start.weight_b;
    let mut last_a = last_of(history_a);
    let mut last_b = last_of(history_b);
    let mut i: usize = 0;
    // No `for` over the frames: the machine code of this form is the faster one.
    while buffer.len() - i > 1 {
        let frame = frame_at(buffer, i);
        let a = turn::<true>(direction, weight_a, delta, last_b, frame.a);
        let b = turn::<true>(direction, weight_b, delta, last_a, frame.b);
        store_frame(buffer, i, a.element, b.element);
        weight_a = a.weight;
        weight_b = b.weight;
        last_a = a.sample;
        last_b = b.sample;
        i += 2;
    }
    with_swap(start, weight_a, weight_b, last_a, last_b)
}
