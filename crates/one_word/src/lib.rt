// Implements document 01, "One word", as an entry of its own, and document 02, §8: for a caller that holds
// the state from word to word, and with it the bits that each channel took.

#![tactic(auto)]

ghost use Rattle.std.specs.Prelude.{◌≡◌, ◌<◌, pos};
ghost use Rattle.answers.specs.Numbers.{number_of};
ghost use Rattle.word_state.specs.State.{with_flags, with_bits, paid, in_run, unbroken, after};
ghost use Rattle.words.specs.Word.{given, refused};
ghost use Rattle.word_state.specs.View.{state_of, bits_read_of};
ghost use Rattle.zones.specs.Report.{none, zone_of};
ghost use Rattle.one_word.specs.View.{view_word, tell_word, bits_taken, EndsAfter, one_word};

use answers::Refusal;
use answers::limits::MAX_PAYLOAD_BYTES;
use entropy::AdaptiveMedians;
use medians::adaptation::adapt;
use word_state::{StereoDecodeState, bits_exceed, charged, zero_run_eligible};
use words::coded::{Coded, read_word};
use zones::{WordReport, Zone};

// What the one-word entry answers. A refusal tells place and state too, so it is a field and no `Result`
// of the others.
#[derive(Clone, Copy)]
pub struct WordAnswer {
    pub outcome: Result<(), Refusal>,
    pub sample: i32,
    pub place: usize,
    pub state: StereoDecodeState,
    pub report: WordReport,
}

// A refused word: sample 0, the old place and state, no report.
fn refused(refusal: Refusal, place: usize, state: StereoDecodeState) -> WordAnswer
    ensures { view_word result ≡ tell_word place (state_of state) (refused (number_of refusal)) }
{
    WordAnswer {
        outcome: Err(refusal),
        sample: 0,
        place,
        state,
        report: WordReport { zone: None },
    }
}

// A zero out of a run, which reports no zone.
fn zero(place: usize, state: StereoDecodeState) -> WordAnswer
    ensures { view_word result ≡ tell_word place (state_of state) (given (pos 0) place (state_of state) none) }
{
    WordAnswer {
        outcome: Ok(()),
        sample: 0,
        place,
        state,
        report: WordReport { zone: None },
    }
}

// A sample outside a run.
fn given(sample: i32, place: usize, state: StereoDecodeState, ones_count: u32) -> WordAnswer
    ensures { view_word result
        ≡ tell_word place (state_of state)
        (given sample place (state_of state) (zone_of ones_count)) }
{
    WordAnswer {
        outcome: Ok(()),
        sample,
        place,
        state,
        report: WordReport {
            zone: Some(Zone::from_ones_count(ones_count)),
        },
    }
}

// Step 1: `owed` zeros are left.
fn paid(state: StereoDecodeState, owed: u32) -> StereoDecodeState
    requires { state.next_channel < 2 }
    ensures { state_of result ≡ paid owed (state_of state) }
{
    StereoDecodeState {
        zero_run_pending: owed,
        next_channel: 1 - state.next_channel,
        ..state
    }
}

// Step 2: the first zero of a run, after which `owed` are left, and the totals with its bits.
fn in_run(state: StereoDecodeState, totals: [u32; 2], owed: u32) -> StereoDecodeState
    requires { state.next_channel < 2 }
    ensures { state_of result ≡ in_run owed (with_bits (bits_read_of totals) (state_of state)) }
{
    StereoDecodeState {
        medians: [AdaptiveMedians::ZERO; 2],
        zero_run_pending: owed,
        run_break: true,
        ever_took_zero_run: true,
        next_channel: 1 - state.next_channel,
        bits_read: totals,
        ..state
    }
}

// Steps 3 and 4: the flags after a word, the medians due adapted to its count, and the totals with its
// bits.
fn adapted(
    state: StereoDecodeState,
    totals: [u32; 2],
    ones_count: u32,
    zero_after: bool,
    one_after: bool,
) -> StereoDecodeState
    requires { state.next_channel < 2 }
    ensures { state_of result
        ≡ after ones_count
        (with_flags zero_after one_after (unbroken (with_bits (bits_read_of totals) (state_of state)))) }
{
    let channel = state.next_channel as usize;
    let mut medians = state.medians;
    medians[channel] = adapt(medians[channel], ones_count);
    StereoDecodeState {
        medians,
        last_zero: zero_after,
        last_one: one_after,
        run_break: false,
        next_channel: 1 - state.next_channel,
        bits_read: totals,
        ..state
    }
}

// The bits that a word took, from its place to the next.
fn bits_taken(word: Coded, place: usize) -> usize
    requires { EndsAfter place word }
    ensures { result ≡ bits_taken place word }
{
    match word {
        Coded::Run { next, .. } | Coded::Sample { next, .. } => next - place,
    }
}

// The word at a place of the payload, in any state. What it took counts for the channel due. Refuses
// with 5 a payload of over 4,194,304 bytes, with 12 a channel above 1 or totals that together exceed the
// place, then with 3 or 4 what the word runs into; a refusal gives sample 0, the old place, the old state
// and no report.
pub fn decode_sample_stateful_stereo(
    payload: &[u8],
    place: usize,
    state: StereoDecodeState,
) -> WordAnswer
    ensures { view_word result ≡ one_word payload.now place (state_of state) }
{
    if payload.len() > MAX_PAYLOAD_BYTES {
        return refused(Refusal::TooLarge, place, state);
    }
    let before = state.bits_read;
    if (state.next_channel > 1) | bits_exceed(before, place) {
        return refused(Refusal::InvalidChannel, place, state);
    }
    let debt = state.zero_run_pending;
    if debt > 0 {
        return zero(place, paid(state, debt - 1));
    }
    let channel = state.next_channel as usize;
    let sets = state.medians;
    let zero_before = state.last_zero;
    let one_before = state.last_one;
    let run = zero_run_eligible(sets[0], sets[1], state.run_break, zero_before, one_before);
    let read = read_word(payload, place, run, sets[channel], zero_before, one_before);
    let word = match read {
        Ok(word) => word,
        Err(refusal) => return refused(refusal, place, state),
    };
    let totals = charged(before, state.next_channel, bits_taken(word, place));
    match word {
        Coded::Run { owed, next } => zero(next, in_run(state, totals, owed)),
        Coded::Sample {
            value,
            ones_count,
            next,
            last_zero,
            last_one,
        } => {
            given(
                value,
                next,
                adapted(state, totals, ones_count, last_zero, last_one),
                ones_count,
            )
        }
    }
}
