// Implements document 01, "Passes": a lent list of passes over a buffer, one after the other.
//
// The list stays lent: `run_list` walks it, takes each pass out, runs it over the buffer and stores
// it back. All arithmetic stands in a function of plain values.

#![tactic(auto)]

ghost use Rattle.std.specs.Prelude.{◌≡◌, ◌<◌};
ghost use Rattle.list_runs.specs.Chained.{chained, place_of};

use pass_runs::run_pass;
use passes::{DecorrPass, Direction};

// The pass that turn i of n works on.
fn place(direction: Direction, n: usize, i: usize) -> usize
    requires { i < n }
    ensures { result ≡ place_of direction n i }
{
    match direction {
        Direction::Decorrelation => i,
        Direction::Analysis => n - 1 - i,
    }
}

// Runs every pass of a list over the buffer: in decorrelation the first one first, in analysis the
// last one first. It refuses nothing.
pub fn run_list(direction: Direction, passes: &mut [DecorrPass], buffer: &mut [i32])
    ensures { record { passes = passes.new; buffer = buffer.new }
        ≡ chained direction passes.old buffer.old }
{
    let n = passes.len();
    for i in 0..n {
        let j = place(direction, n, i);
        passes[j] = run_pass(direction, passes[j], buffer);
    }
}
