// The steps of the round trip before and after packing: what is refused before anything is written, and
// whether a payload gives the recording back.

#![tactic(auto)]

ghost use Rattle.std.specs.Prelude.{◌≡◌, length};
ghost use Rattle.answers.specs.Numbers.{outcome_number};
ghost use Rattle.trip_steps.specs.Steps.{early_refusal, came_back, BackIs};

use answers::Refusal;
use answers::limits::MAX_PASSES;
use decorrelation::{analysis_refusal, decorrelate_array};
use pack_refusals::refusal_before_span;
use passes::DecorrPass;
use samples::reading::decode_packed_samples_stereo_from_entropy;
use trip_lists::same;

// What analysis refuses, and then packing before it looks at a residual. Writes nothing.
pub fn early_refusal(
    passes: [DecorrPass; MAX_PASSES],
    count: usize,
    elements: usize,
    entropy: &[u8],
    room: usize,
) -> Result<(), Refusal>
    ensures { outcome_number result
        ≡ early_refusal passes count elements entropy.now room }
{
    analysis_refusal(passes, count, elements)?;
    refusal_before_span(elements, entropy, elements / 2, room)
}

// Whether both accepted, as many bits were used as were written, and the samples are `equal`.
#[tactic(auto, using(crate::proofs::StepLaws::ok_is))]
fn came_back(
    read: Result<(), Refusal>,
    decorrelated: Result<[DecorrPass; MAX_PASSES], Refusal>,
    used: usize,
    written: usize,
    equal: bool,
) -> bool
    ensures { result ≡ came_back (outcome_number read) (outcome_number decorrelated) used written equal }
{
    read.is_ok() && decorrelated.is_ok() && used == written && equal
}

// Whether a payload of so many bits, read and decorrelated into the scratch list, is the recording.
pub fn read_back(
    passes: [DecorrPass; MAX_PASSES],
    count: usize,
    entropy: &[u8],
    payload: &[u8],
    written: usize,
    recording: &[i32],
    scratch: &mut [i32],
) -> bool
    requires { length recording.now ≡ length scratch.old }
    ensures { BackIs passes count entropy.now payload.now written
        recording.now scratch.old scratch.new result }
{
    let read = decode_packed_samples_stereo_from_entropy(
        entropy,
        payload,
        recording.len() / 2,
        scratch,
    );
    let samples = decorrelate_array(passes, count, scratch);
    let equal = same(recording, scratch);
    came_back(read.outcome, samples, read.bits, written, equal)
}
