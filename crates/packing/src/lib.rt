// Document 01, "Packing": the residuals of a stereo recording as the words that reading reads, as
// definitions in specs/, their laws in proofs/, and what the code over them answers. The bits of one word
// are the crate word_bits. The code stands in `packing_turns` (a turn of the loop, in every state),
// `word_packing` (all words), `pack_refusals` (what is refused before a residual is looked at) and
// `pack_entry`.

#![tactic(auto)]

use entropy::AdaptiveMedians;

// What one turn of the packing loop writes: where it ends, how many zeros it tells of, and, where
// that is none, the medians of its channel after the word. The flags are those after it.
#[derive(Clone, Copy)]
pub struct Turn {
    pub place: usize,
    pub run: usize,
    pub medians: AdaptiveMedians,
    pub last_zero: bool,
    pub last_one: bool,
}

// What packing answers where it refuses nothing: the bits written, and the medians after them.
#[derive(Clone, Copy)]
pub struct Packed {
    pub bits: usize,
    pub medians: [AdaptiveMedians; 2],
}
