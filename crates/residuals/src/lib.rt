// The residuals of a recording: found by analysis in a lent list, and whether they lie in the span that
// packing takes, known before lent storage is written. For that analysis goes through the recording part
// by part, over an array of its own, which comes to the same as the whole since parts end on eights
// (Q10.4).

#![tactic(auto)]

ghost use Rattle.std.specs.Prelude.{◌≡◌, ◌≤◌, length, take};
ghost use Rattle.passes.specs.Run.{analysed};
ghost use Rattle.word_bits.specs.Residuals.{spanned};
ghost use Rattle.residuals.specs.Residuals.{part_elements, part_answer, Analysable, AnsweredIs, FoundIs};

use answers::Refusal;
use answers::limits::{MAX_PASSES, RESIDUAL_SPAN};
use decorrelation::recorrelate_array;
use passes::DecorrPass;
use spans::is_within;
use trip_lists::copy;

// The elements of a part: 1,024 frames, a multiple of eight.
const PART: usize = 2048;

// The residuals that analysis by the first `count` passes of an array finds, into a lent list, and the
// passes after it. What analysis refuses (5, 9, 7) leaves the recording in the list.
pub fn try_find_residuals(
    passes: [DecorrPass; MAX_PASSES],
    count: usize,
    recording: &[i32],
    list: &mut [i32],
) -> Result<[DecorrPass; MAX_PASSES], Refusal>
    requires { length recording.now ≡ length list.old }
    ensures { AnsweredIs passes count recording.now list.new result }
{
    copy(recording, list);
    recorrelate_array(passes, count, list)
}

// The same for passes that analysis takes. It refuses nothing: of others the passes come back as they were.
pub fn find_residuals(
    passes: [DecorrPass; MAX_PASSES],
    count: usize,
    recording: &[i32],
    list: &mut [i32],
) -> [DecorrPass; MAX_PASSES]
    requires { length recording.now ≡ length list.old }
    ensures { FoundIs passes count recording.now list.new result }
{
    try_find_residuals(passes, count, recording, list).unwrap_or(passes)
}

// The passes after a part whose residuals lie in the span, found in a lent list; none where one lies
// outside.
fn look_in(
    passes: [DecorrPass; MAX_PASSES],
    count: usize,
    part: &[i32],
    list: &mut [i32],
) -> Option<[DecorrPass; MAX_PASSES]>
    requires same { length part.now ≡ length list.old }
    requires short { length part.now ≤ part_elements }
    ensures { result ≡ part_answer passes count part.now }
{
    let after = find_residuals(passes, count, part, list);
    if is_within(list, RESIDUAL_SPAN) {
        Some(after)
    } else {
        None
    }
}

// Room for a part. In a function of its own, so that a proof about it has its length and not its zeros.
fn room() -> [i32; PART]
    ensures { length result ≡ part_elements }
{
    [0; PART]
}

// The same, found in an array of its own.
fn look_at_part(
    passes: [DecorrPass; MAX_PASSES],
    count: usize,
    part: &[i32],
) -> Option<[DecorrPass; MAX_PASSES]>
    requires { length part.now ≤ part_elements }
    ensures { result ≡ part_answer passes count part.now }
{
    let mut list = room();
    let size = part.len();
    look_in(passes, count, part, &mut list[..size])
}

// Whether analysis by the first `count` passes of an array finds only residuals in the span. Writes
// nothing.
pub fn residuals_in_span(passes: [DecorrPass; MAX_PASSES], count: usize, recording: &[i32]) -> bool
    requires { Analysable passes count }
    ensures { result ≡ spanned (analysed (take count passes) recording.now).buffer }
{
    let mut list = passes;
    for part in recording.chunks(PART) {
        let Some(after) = look_at_part(list, count, part) else {
            return false;
        };
        list = after;
    }
    true
}
