// Implements document 01, "Entropy": the medians that an entropy payload seeds a word state with.
// Refusal 2 is decided in one place, `is_not_stereo`.

#![tactic(auto)]

ghost use Rattle.std.specs.Prelude.{◌≡◌, false};
ghost use Rattle.std.specs.Result.{result_unwrap_or};
ghost use Rattle.answers.specs.Numbers.{outcome_number};
ghost use Rattle.entropy.specs.Medians.{medians_of, pair_of, zero_sets};
ghost use Rattle.entropy.specs.Entropy.{entropy_info};
ghost use Rattle.entropy.specs.Seed.{any_negative, not_stereo, seed_set};
ghost use Rattle.entropy.specs.Seed.{seed_refusal, seed_medians};

use answers::Refusal;
use entropy::{AdaptiveMedians, EntropyInfo};
use entropy_info::{expand_entropy, is_mono};

// Whether a set holds a negative median.
fn any_negative(set: [i32; 3]) -> bool
    ensures { result ≡ any_negative set }
{
    (set[0] < 0) | (set[1] < 0) | (set[2] < 0)
}

// The test behind refusal 2: whether a payload is mono, or holds a negative median. `info` is what
// it expands to.
fn is_not_stereo(payload: &[u8], info: EntropyInfo) -> bool
    requires { info ≡ entropy_info payload.now }
    ensures { result ≡ not_stereo payload.now }
{
    is_mono(payload) | any_negative(info.medians_left) | any_negative(info.medians_right)
}

// A set without a negative median, as the medians of a word state.
fn seed_set(set: [i32; 3]) -> AdaptiveMedians
    requires { any_negative set ≡ false }
    ensures { medians_of result ≡ seed_set set }
{
    AdaptiveMedians {
        values: [set[0] as u32, set[1] as u32, set[2] as u32],
    }
}

// Answers the medians that an entropy payload seeds. Refuses with 1 where its length is neither 6
// nor 12, with 17 where a log word is out of reach, then with 2 where it is mono or holds a negative
// median.
pub fn stereo_pair_from_entropy(payload: &[u8]) -> Result<[AdaptiveMedians; 2], Refusal>
    ensures outcome { outcome_number result ≡ seed_refusal payload.now }
    ensures medians { pair_of (result_unwrap_or result zero_sets) ≡ seed_medians payload.now }
{
    let info = expand_entropy(payload)?;
    if is_not_stereo(payload, info) {
        return Err(Refusal::NotStereo);
    }
    Ok([seed_set(info.medians_left), seed_set(info.medians_right)])
}
