// Implements document 01, "Reading": the words of a payload one after another, into a lent list.

#![tactic(auto)]

use answers::Refusal;
use entropy::AdaptiveMedians;

pub mod reading;

// What reading answers: the outcome, the bits used, the medians after, how many samples were written,
// and how many of the bits used each channel took. A refusal tells them all, so it is a field and no
// `Result` of the others.
#[derive(Clone, Copy)]
pub struct ReadAnswer {
    pub outcome: Result<(), Refusal>,
    pub bits: usize,
    pub medians: [AdaptiveMedians; 2],
    pub written: usize,
    pub bits_read: [usize; 2],
}
