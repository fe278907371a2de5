// Implements document 01, "Entropy": the two sets of medians that an entropy payload holds.

#![tactic(auto)]

ghost use Rattle.std.specs.Prelude.{◌≡◌};
ghost use Rattle.std.specs.Result.{result_unwrap_or};
ghost use Rattle.answers.specs.Numbers.{outcome_number};
ghost use Rattle.entropy.specs.Entropy.{entropy_info, entropy_refusal, is_mono, no_info};
ghost use Rattle.entropy.specs.Sets.{both_refusal, both_told};

use answers::Refusal;
use entropy::{EntropyInfo, SetAnswer};
use median_set::read_median_set;

// Whether an entropy payload is mono. Its length alone tells: a zero right set is a right set.
pub fn is_mono(payload: &[u8]) -> bool
    ensures { result ≡ is_mono payload.now }
{
    payload.len() == 6
}

// Both sets of a payload, where neither is refused.
fn both_sets(left: SetAnswer, right: SetAnswer) -> Result<EntropyInfo, Refusal>
    ensures outcome { outcome_number result ≡ both_refusal left right }
    ensures info { result_unwrap_or result no_info ≡ both_told left right }
{
    left.outcome?;
    right.outcome?;
    let medians_left = left.medians;
    let medians_right = right.medians;
    Ok(EntropyInfo {
        medians_left,
        medians_right,
    })
}

// Answers the medians of an entropy payload. Refuses with 1 where the length is neither 6 nor 12,
// then with 17 where a log word is out of reach.
pub fn expand_entropy(payload: &[u8]) -> Result<EntropyInfo, Refusal>
    ensures outcome { outcome_number result ≡ entropy_refusal payload.now }
    ensures info { result_unwrap_or result no_info ≡ entropy_info payload.now }
{
    if is_mono(payload) {
        let left = read_median_set(payload);
        let none = SetAnswer {
            outcome: Ok(()),
            medians: [0, 0, 0],
        };
        return both_sets(left, none);
    }
    if payload.len() == 12 {
        let left = read_median_set(payload);
        let right = read_median_set(&payload[6..]);
        return both_sets(left, right);
    }
    Err(Refusal::EntropyLength)
}
