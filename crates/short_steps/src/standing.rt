// Where a reading stands. The struct has a file of its own, since the definitions that the crate's
// contracts cite name it.

ghost use Rattle.std.specs.Prelude.{◌≤◌};

use entropy::AdaptiveMedians;

// Where a reading stands between two words. Of the bits before its place `left_bits` were left's; the
// others are right's, so that one number more is all that the loop holds.
#[derive(Clone, Copy)]
pub struct Standing {
    pub place: usize,
    pub left_bits: usize,
    pub written: usize,
    pub left: AdaptiveMedians,
    pub right: AdaptiveMedians,
    pub last_zero: bool,
    pub last_one: bool,
    pub ghost part: { left_bits ≤ place },
}
