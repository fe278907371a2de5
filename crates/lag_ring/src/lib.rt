// Implements document 01, "Passes": a fixed lag over a whole buffer, by a ring of the last eight
// samples.

#![tactic(auto)]

ghost use Rattle.std.specs.Prelude.{◌≡◌};
ghost use Rattle.passes.specs.Run.{run, turn};
ghost use Rattle.passes.specs.declared.Term.TheVariants.{Lag};

use pass_turns::{frame_at, store_frame, turn, with_state};
use passes::{DecorrPass, Direction};

// A fixed lag, by a ring of the last eight samples.
pub fn run_ring(
    direction: Direction,
    lag: usize,
    start: DecorrPass,
    buffer: &mut [i32],
) -> DecorrPass
    ensures { record { pass = result; buffer = buffer.new }
        ≡ run (turn direction (Lag lag)) start 0 buffer.old }
{
    let delta = start.delta;
    let mut history_a = start.history_a;
    let mut history_b = start.history_b;
    let mut weight_a = start.weight_a;
    let mut weight_b = start.weight_b;
    let mut index: usize = 0;
    let mut i: usize = 0;
    // No `for` over the frames: the machine code of this form is the faster one.
    while buffer.len() - i > 1 {
        let frame = frame_at(buffer, i);
        let slot = index % 8;
        let a = turn::<false>(direction, weight_a, delta, history_a[slot], frame.a);
        let b = turn::<false>(direction, weight_b, delta, history_b[slot], frame.b);
        store_frame(buffer, i, a.element, b.element);
        let next = (slot + lag % 8) % 8;
        history_a[next] = a.sample;
        history_b[next] = b.sample;
        weight_a = a.weight;
        weight_b = b.weight;
        i += 2;
        index += 1;
    }
    with_state(start, weight_a, weight_b, history_a, history_b)
}
