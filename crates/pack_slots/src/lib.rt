// Packing for a caller that holds what it is told in a list of slots. As in reading, what it
// answers is laid into its slots on refusal too; only a list with too few slots is left alone.

#![tactic(auto)]

ghost use Rattle.std.specs.Prelude.{◌≡◌};
ghost use Rattle.answers.specs.Numbers.{outcome_number};
ghost use Rattle.pack_slots.specs.PackSlots.{pack_call};

use answers::Refusal;
use entropy::AdaptiveMedians;
use median_slots::lay_counts;
use pack_entry::encode_packed_samples_stereo_from_entropy;

// `wv_pack`: the packed bytes, and into 7 slots bits written, left medians and right medians.
#[tactic(auto, using(crate::proofs::PackSlotLaws::pack_few))]
pub fn pack_call(
    residuals: &[i32],
    entropy: &[u8],
    frames: usize,
    out: &mut [u8],
    answer: &mut [u32],
) -> Result<(), Refusal>
    ensures { record { refusal = outcome_number result; bytes = out.new; answer = answer.new }
        ≡ pack_call residuals.now entropy.now frames out.old answer.old }
{
    if answer.len() < 7 {
        return Err(Refusal::ListLength);
    }
    match encode_packed_samples_stereo_from_entropy(residuals, entropy, frames, out) {
        Ok(packed) => {
            lay_counts(packed.bits, packed.medians, answer);
            Ok(())
        }
        Err(refusal) => {
            lay_counts(0, [AdaptiveMedians::ZERO; 2], answer);
            Err(refusal)
        }
    }
}
