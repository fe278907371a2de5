// Implements document 01, "Passes": one pass over a whole buffer, decorrelation and analysis: the
// match on the term stands outside the loops.

#![tactic(auto)]

ghost use Rattle.std.specs.Prelude.{◌≡◌};
ghost use Rattle.passes.specs.Run.{passed};

use cross_runs::{run_cross, run_swap};
use lag_runs::run_lag;
use passes::{DecorrPass, Direction, Term};
use two_runs::run_two;

// One pass over a buffer, by its term. A term that is not valid is run as a lag of 0; no entry runs
// one.
pub fn run_pass(direction: Direction, start: DecorrPass, buffer: &mut [i32]) -> DecorrPass
    ensures { record { pass = result; buffer = buffer.new } ≡ passed direction start buffer.old }
{
    let t = passes::term_of(start.term);
    match t {
        Term::Lag(lag) => run_lag(direction, lag, start, buffer),
        Term::Seventeen => run_two::<false>(direction, start, buffer),
        Term::Eighteen => run_two::<true>(direction, start, buffer),
        Term::MinusOne => run_cross(direction, false, start, buffer),
        Term::MinusTwo => run_cross(direction, true, start, buffer),
        Term::MinusThree => run_swap(direction, start, buffer),
        Term::Invalid => run_lag(direction, 0, start, buffer),
    }
}
