// The bits of one word as document 01, "Packing", has them, whatever the state: the definitions in
// specs/ (stretches of zeros, the smallest count, the fields of a word) and their laws in proofs/, and
// what the code over them answers. It stands in `zero_runs` (stretches of zeros), `locating` (where a
// residual lies among the intervals) and `word_laying` (a word, and the run length before it).

#![tactic(auto)]

use entropy::AdaptiveMedians;

// The count of a magnitude, its code, the last code of its interval, and the medians after it.
#[derive(Clone, Copy)]
pub struct Located {
    pub count: u32,
    pub code: u32,
    pub last: u32,
    pub medians: AdaptiveMedians,
}

// Where a word ends, and the medians of its channel after it.
#[derive(Clone, Copy)]
pub struct Word {
    pub place: usize,
    pub medians: AdaptiveMedians,
}

// What goes before a word: where it ends, and how many zeros it counts.
#[derive(Clone, Copy)]
pub struct Before {
    pub place: usize,
    pub run: usize,
}
