// Implements document 01, "Packing", its entry: what is refused, or all words from the medians that the
// entropy payload seeds.

#![tactic(auto)]

ghost use Rattle.std.specs.Prelude.{◌≡◌};
ghost use Rattle.packing.specs.Entry.{view_packing, pack_entry};

use answers::Refusal;
use answers::limits::RESIDUAL_SPAN;
use pack_refusals::refusal_before_span;
use packing::Packed;
use spans::is_within;
use stereo_pair::stereo_pair_from_entropy;
use word_packing::pack_words;

// Answers the bits written and the medians after. Refuses with 5, 6, 1, 17, 2 and 11 as
// `refusal_before_span` does, and then with 10 for a residual outside the span; the buffer then
// keeps its bytes.
pub fn encode_packed_samples_stereo_from_entropy(
    residuals: &[i32],
    entropy: &[u8],
    frames: usize,
    out: &mut [u8],
) -> Result<Packed, Refusal>
    ensures { view_packing result out.new
        ≡ pack_entry residuals.now entropy.now frames out.old }
{
    refusal_before_span(residuals.len(), entropy, frames, out.len())?;
    if !is_within(residuals, RESIDUAL_SPAN) {
        return Err(Refusal::ResidualOutOfSpan);
    }
    let seeds = stereo_pair_from_entropy(entropy)?;
    Ok(pack_words(residuals, seeds, out))
}
