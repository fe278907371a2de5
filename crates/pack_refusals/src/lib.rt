// Implements document 01, "Why each operation says no", for packing: all that it refuses before it looks
// at a residual.

#![tactic(auto)]

ghost use Rattle.std.specs.Prelude.{◌≡◌};
ghost use Rattle.answers.specs.Numbers.{outcome_number};
ghost use Rattle.packing.specs.Entry.{refusal_before_span};

use answers::Refusal;
use answers::limits::{BYTES_PER_FRAME, MAX_FRAMES};
use stereo_pair::stereo_pair_from_entropy;

// What packing refuses by the lengths of what is lent and by the entropy payload, before it looks
// at a residual: 5 over 131,072 frames, 6 where there are not two residuals a frame, 1, 17 and 2
// about the entropy payload, 11 where under 28 bytes a frame are lent. Writes nothing.
#[tactic(auto, using(packing::proofs::RefusalLaws::before_frames))]
pub fn refusal_before_span(
    elements: usize,
    entropy: &[u8],
    frames: usize,
    room: usize,
) -> Result<(), Refusal>
    ensures { outcome_number result
        ≡ refusal_before_span elements entropy.now frames room }
{
    if frames > MAX_FRAMES {
        return Err(Refusal::TooLarge);
    }
    if elements != 2 * frames {
        return Err(Refusal::ListLength);
    }
    stereo_pair_from_entropy(entropy)?;
    if room < BYTES_PER_FRAME * frames {
        return Err(Refusal::OutputTooShort);
    }
    Ok(())
}
