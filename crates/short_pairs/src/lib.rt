// Implements document 01, "Reading", for short words that come one after another: a left and a right
// one a turn, so that the medians of both stay in registers.

#![tactic(auto)]

ghost use Rattle.std.specs.Prelude.{◌≡◌, false, ◌+◌, ◌/◌, ◌%◌, ◌≤◌, length};
ghost use Rattle.answers.specs.Limits.{max_payload_bytes};
ghost use Rattle.entropy.specs.Medians.{medians_of};
ghost use Rattle.word_state.specs.State.{run_due};
ghost use Rattle.short_steps.specs.Onward.{Onward};

use bit_windows::register::first_window;
use short_steps::{Standing, short_step};

// Short words into `out`, two a turn, up to the first that is none, to the place `stop` or to the end
// of `out`.
pub fn read_pairs(payload: &[u8], out: &mut [i32], from: Standing, stop: usize) -> Standing
    requires limit { length payload.now ≤ max_payload_bytes }
    requires stop { stop / 8 + 32 ≤ length payload.now }
    requires place { from.place ≤ stop }
    requires written { from.written ≤ length out.old }
    requires channel { from.written % 2 ≡ 0 }
    requires due { run_due (medians_of from.left) (medians_of from.right)
        from.last_zero from.last_one ≡ false }
    ensures { Onward payload.now out.old out.new from result }
{
    let mut at = from;
    let mut w = first_window(payload, from.place);
    while at.written + 1 < out.len() {
        if at.place > stop {
            return at;
        }
        let left = short_step::<0>(payload, out, at, w);
        if !left.on {
            return left.at;
        }
        let right = short_step::<1>(payload, out, left.at, left.w);
        at = right.at;
        w = right.w;
        if !right.on {
            return at;
        }
    }
    at
}
