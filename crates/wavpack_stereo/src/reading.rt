// Reading, and one word for a caller that holds the state in a list of slots. Unlike the values,
// what these two answer is laid into its slots on refusal too; only lists with too few slots are
// left alone.
ghost use Rattle.std.specs.Prelude.{◌≡◌};
ghost use Rattle.word_calls.specs.Calls.{read_call, word_call};

use answers::outcome_number;

// The samples of `frames` frames into `samples`, left then right; bits used, left medians, right
// medians, samples written, bits of left and bits of right into 10 slots of `answer`. Refuses 6 for
// `answer`, with nothing written; then, with `answer` written, 5, 6, 1, 17, 2, and 3 or 4 in a word.
pub fn wv_read(
    entropy: &[u8],
    payload: &[u8],
    frames: usize,
    samples: &mut [i32],
    answer: &mut [u32],
) -> u32
    ensures { record { refusal = result; samples = samples.new; answer = answer.new }
        ≡ read_call entropy.now payload.now frames
        samples.old answer.old }
{
    outcome_number(&word_calls::read_call(entropy, payload, frames, samples, answer))
}

// The word at a place of the payload, in the state that the 15 slots of `state` hold; its sample
// into 1 slot, its report into 2. Refuses 6 for the slots, with nothing written; then 5, 12, 3 or
// 4, with sample 0, no report, and `state` as it was.
pub fn wv_word(payload: &[u8], state: &mut [u32], sample: &mut [i32], report: &mut [u32]) -> u32
    ensures { record {
      refusal = result;
      state = state.new;
      sample = sample.new;
      report = report.new;
    }
        ≡ word_call payload.now state.old sample.old report.old }
{
    outcome_number(&word_calls::word_call(payload, state, sample, report))
}
