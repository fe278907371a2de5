// Implements document 01, "One word": the state that reading and packing walk, and the one test of
// whether a run length stands before a word; and document 02, §8: the bits that each channel took. What
// a word does to the state is in specs/State.antt.

#![tactic(auto)]

ghost use Rattle.std.specs.Prelude.{◌≡◌, not, ◌&&◌, ◌+◌, ◌<◌, get_or};
ghost use Rattle.entropy.specs.Medians.{medians_of};
ghost use Rattle.word_state.specs.State.{run_due, SmallBits, plus_bits, exceeds};
ghost use Rattle.word_state.specs.View.{bits_read_of};

use entropy::AdaptiveMedians;

// The state of the words: the medians of both channels, indexed by channel, and what one word
// leaves to the next; and the bits read for each channel so far.
#[derive(Clone, Copy)]
pub struct StereoDecodeState {
    pub medians: [AdaptiveMedians; 2],
    pub last_zero: bool,
    pub last_one: bool,
    pub zero_run_pending: u32,
    pub run_break: bool,
    pub ever_took_zero_run: bool,
    pub next_channel: u32,
    pub bits_read: [u32; 2],
}

// Whether a run length stands before a word, from the medians of both channels, in any order, and
// what the words before left. The medians are tested first: in loud payloads they alone decide.
#[tactic(auto, unfolding(crate::specs::State::run_due))]
pub fn zero_run_eligible(
    one_set: AdaptiveMedians,
    other_set: AdaptiveMedians,
    run_break: bool,
    last_zero: bool,
    last_one: bool,
) -> bool
    ensures { result ≡ (not run_break
        && run_due (medians_of one_set) (medians_of other_set) last_zero last_one) }
{
    one_set.values[0] <= 1 && other_set.values[0] <= 1 && !run_break && !last_zero && !last_one
}

// Whether both totals together exceed a place. A sum of two numbers of 32 bits fits 64.
#[tactic(auto, unfolding(crate::specs::State::exceeds))]
pub fn bits_exceed(bits_read: [u32; 2], place: usize) -> bool
    ensures exceeds { result ≡ exceeds (bits_read_of bits_read) place }
    ensures small { SmallBits (bits_read_of bits_read) }
{
    bits_read[0] as usize + bits_read[1] as usize > place
}

// The totals with what a word took counted for the channel that was due.
pub fn charged(bits_read: [u32; 2], channel: u32, took: usize) -> [u32; 2]
    requires channel { channel < 2 }
    requires fits { get_or bits_read channel 0 + took < 4294967296 }
    ensures { bits_read_of result ≡ plus_bits channel took (bits_read_of bits_read) }
{
    let mut totals = bits_read;
    totals[channel as usize] += took as u32;
    totals
}
