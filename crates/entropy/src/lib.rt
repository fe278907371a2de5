// Implements document 01, "Entropy": the structs of the entropy payload and of the medians that it
// seeds a word state with. The functions stand in crates of their own: `median_set`, `entropy_info` and
// `stereo_pair`.

#![tactic(auto)]

use answers::Refusal;

// The three adaptive medians of one channel.
#[derive(Clone, Copy)]
pub struct AdaptiveMedians {
    pub values: [u32; 3],
}

impl AdaptiveMedians {
    // Those after a run of zeros.
    pub const ZERO: AdaptiveMedians = AdaptiveMedians { values: [0; 3] };
}

// The two sets of signed medians of an entropy payload. A mono payload has no right set; its right
// medians are 0.
#[derive(Clone, Copy)]
pub struct EntropyInfo {
    pub medians_left: [i32; 3],
    pub medians_right: [i32; 3],
}

// What expanding one set answers. Of a refused set the words that are not refused are told too, so it
// is no `Result` of medians (clause `medians` of `read_median_set`); the median of a refused word is 0.
#[derive(Clone, Copy)]
pub struct SetAnswer {
    pub outcome: Result<(), Refusal>,
    pub medians: [i32; 3],
}
