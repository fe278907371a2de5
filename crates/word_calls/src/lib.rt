// Reading, and one word for a caller that holds the state in a list of slots. Unlike the values,
// what these two answer is laid into its slots on refusal too; only lists with too few slots are
// left alone.

#![tactic(auto)]

ghost use Rattle.std.specs.Prelude.{◌≡◌};
ghost use Rattle.answers.specs.Numbers.{outcome_number};
ghost use Rattle.word_calls.specs.Calls.{read_call, word_call};

use answers::Refusal;
use median_slots::lay_counts;
use one_word::decode_sample_stateful_stereo;
use samples::reading::decode_packed_samples_stereo_from_entropy;
use slots::lay;
use state_slots::state_in;
use word_slots::lay_word;

// `wv_read`: the samples, and into 10 slots bits used, left medians, right medians, samples written,
// bits of left and bits of right.
#[tactic(auto, using(crate::proofs::CallLaws::read_few))]
pub fn read_call(
    entropy: &[u8],
    payload: &[u8],
    frames: usize,
    samples: &mut [i32],
    answer: &mut [u32],
) -> Result<(), Refusal>
    ensures { record { refusal = outcome_number result; samples = samples.new; answer = answer.new }
        ≡ read_call entropy.now payload.now frames samples.old answer.old }
{
    if answer.len() < 10 {
        return Err(Refusal::ListLength);
    }
    let read = decode_packed_samples_stereo_from_entropy(entropy, payload, frames, samples);
    lay_counts(read.bits, read.medians, answer);
    let [left, right] = read.bits_read;
    let last = [read.written as u32, left as u32, right as u32];
    lay(&last, 7, answer);
    read.outcome
}

// `wv_word`: the word at the place and in the state that 15 slots hold, its sample into 1 slot and
// its report into 2.
pub fn word_call(
    payload: &[u8],
    state: &mut [u32],
    sample: &mut [i32],
    report: &mut [u32],
) -> Result<(), Refusal>
    ensures { record {
      refusal = outcome_number result;
      state = state.new;
      sample = sample.new;
      report = report.new;
    }
        ≡ word_call payload.now state.old sample.old report.old }
{
    if state.len() < 15 || sample.len() < 1 || report.len() < 2 {
        return Err(Refusal::ListLength);
    }
    let place = state[0] as usize;
    let word = decode_sample_stateful_stereo(payload, place, state_in(state));
    lay_word(word, state, sample, report)
}
