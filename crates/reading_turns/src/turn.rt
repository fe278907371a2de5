// Where the reading loop stands. The struct has a file of its own, since the definitions that the crate's
// contracts cite name it.

ghost use Rattle.std.specs.Prelude.{◌≤◌};

use entropy::AdaptiveMedians;

// Where the reading loop stands between two turns, and the state of the words there. Of the bits read
// `left_bits` were left's, the others right's.
#[derive(Clone, Copy)]
pub struct Turn {
    pub bits: usize,
    pub left_bits: usize,
    pub written: usize,
    pub medians: [AdaptiveMedians; 2],
    pub run_break: bool,
    pub last_zero: bool,
    pub last_one: bool,
    pub ghost part: { left_bits ≤ bits },
}
