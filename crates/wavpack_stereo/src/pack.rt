// Packing. As in reading, what it answers is laid into its slots on refusal too; only a list with
// too few slots is left alone.
ghost use Rattle.std.specs.Prelude.{◌≡◌};
ghost use Rattle.pack_slots.specs.PackSlots.{pack_call};

use answers::outcome_number;

// The residuals of `frames` frames, left then right, as packed bytes into `out`; bits written, left
// medians and right medians into 7 slots of `answer`. Refuses 6 for `answer`, with nothing written;
// then, with `answer` all 0 and `out` as it was, 5, 6, 1, 17, 2, 11, 10.
pub fn wv_pack(
    residuals: &[i32],
    entropy: &[u8],
    frames: usize,
    out: &mut [u8],
    answer: &mut [u32],
) -> u32
    ensures { record { refusal = result; bytes = out.new; answer = answer.new }
        ≡ pack_call residuals.now entropy.now frames
        out.old answer.old }
{
    outcome_number(&pack_slots::pack_call(residuals, entropy, frames, out, answer))
}
