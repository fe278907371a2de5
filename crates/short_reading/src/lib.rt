// Implements document 01, "Reading", for short words that come one after another: where they may begin,
// and how far they may go.

#![tactic(auto)]

ghost use Rattle.std.specs.Prelude.{◌≤◌, length};
ghost use Rattle.answers.specs.Limits.{max_payload_bytes};
ghost use Rattle.short_steps.specs.Onward.{Onward};

use short_pairs::read_pairs;
use short_steps::Standing;
use word_state::zero_run_eligible;

// Short words into `out`, as many as come one after another. A pair of them ends within 32 bytes, so
// the last bytes are left to the other reader.
pub fn read_short_words(payload: &[u8], out: &mut [i32], from: Standing) -> Standing
    requires limit { length payload.now ≤ max_payload_bytes }
    requires written { from.written ≤ length out.old }
    ensures { Onward payload.now out.old out.new from result }
{
    if from.written % 2 == 1 {
        return from;
    }
    if payload.len() < 32 {
        return from;
    }
    let stop = 8 * (payload.len() - 32) + 7;
    if from.place > stop {
        return from;
    }
    if zero_run_eligible(from.left, from.right, false, from.last_zero, from.last_one) {
        return from;
    }
    read_pairs(payload, out, from, stop)
}
