// Implements demand 3 at run time: analyse, pack, read back, decorrelate, compare, on lent storage.
// That the answer is always `same` where nothing is refused is the entry's contract, from demand
// 3's theorem (`demand_3`).

#![tactic(auto)]

ghost use Rattle.std.specs.Prelude.{◌≡◌};
ghost use Rattle.trip_entry.specs.Trip.{view_trip, trip_entry};

use answers::Refusal;
use answers::limits::MAX_PASSES;
use pack_entry::encode_packed_samples_stereo_from_entropy;
use passes::DecorrPass;
use residuals::try_find_residuals;
use trip_steps::{early_refusal, read_back};

// What the round trip answers where it refuses nothing: the bits written, and whether the recording came
// back: reading and decorrelation accept, as many bits are used as were written, and every sample is the
// recording's.
#[derive(Clone, Copy)]
pub struct Trip {
    pub bits: usize,
    pub same: bool,
}

// Runs the first `count` passes' analysis on the recording, packs the residuals, reads the packed
// bytes back, decorrelates what was read and compares. Refuses with 6 a scratch list of another
// length, then as analysis does (5, 9, 7), then as packing does (6, 1, 17, 2, 11), and both lent
// storages keep their values; then with 10 a residual outside the span, which is known once the
// scratch list holds the residuals: the packed bytes keep their values.
pub fn round_trip(
    passes: [DecorrPass; MAX_PASSES],
    count: usize,
    recording: &[i32],
    entropy: &[u8],
    scratch: &mut [i32],
    packed: &mut [u8],
) -> Result<Trip, Refusal>
    ensures { view_trip result scratch.new packed.new
        ≡ trip_entry passes count recording.now entropy.now
        scratch.old packed.old }
{
    let elements = recording.len();
    if scratch.len() != elements {
        return Err(Refusal::ListLength);
    }
    early_refusal(passes, count, elements, entropy, packed.len())?;
    try_find_residuals(passes, count, recording, scratch)?;
    let written = encode_packed_samples_stereo_from_entropy(
        scratch,
        entropy,
        elements / 2,
        packed,
    )?;
    let bits = written.bits;
    let end = bits.div_ceil(8);
    let same = read_back(
        passes,
        count,
        entropy,
        &packed[..end],
        bits,
        recording,
        scratch,
    );
    Ok(Trip { bits, same })
}
