// Implements document 01, "Reading", for a short word: out of 64 bits in a register, with the medians of
// both channels in registers too. Its sample is written, and the reading stands after it.

#![tactic(auto)]

ghost use Rattle.std.specs.Prelude.{◌≡◌, ◌+◌, ◌/◌, ◌%◌, ◌≤◌, ◌<◌, length};
ghost use Rattle.answers.specs.Limits.{max_payload_bytes};
ghost use Rattle.bits.specs.Bits.{bits_of};
ghost use Rattle.bits.specs.Window.{Window};
ghost use Rattle.word_state.specs.State.{side};
ghost use Rattle.short_steps.specs.Steps.{Ready, SteppedIs, StepIs};

pub mod standing;

use bit_windows::register::moved;
use entropy::AdaptiveMedians;
use short_words::{ShortWord, short_word};
pub use standing::Standing;

// Where a reading stands after a word, and the 64 bits there. `on` is false where no short word may
// follow: the reading stands somewhere then, too, so this is no `Option`.
#[derive(Clone, Copy)]
pub struct Step {
    pub on: bool,
    pub w: u64,
    pub at: Standing,
}

// A word given: its sample is written, and the reading stands behind it.
fn stepped(
    payload: &[u8],
    out: &mut [i32],
    from: Standing,
    w: u64,
    word: ShortWord,
    left_bits: usize,
    left: AdaptiveMedians,
    right: AdaptiveMedians,
) -> Step
    requires limit { length payload.now ≤ max_payload_bytes }
    requires inside { from.place / 8 + 16 ≤ length payload.now }
    requires room { from.written < length out.old }
    requires window { Window (bits_of payload.now) from.place 64 w }
    requires part { left_bits ≤ from.place + word.used }
    requires some { 0 < word.used }
    requires most { word.used ≤ 57 }
    ensures { SteppedIs payload.now out.old out.new
        from word left_bits left right result }
{
    let i = from.written;
    out[i] = word.value;
    Step {
        on: word.on,
        w: moved(payload, from.place, w, word.used),
        at: Standing {
            place: from.place + word.used,
            left_bits,
            written: i + 1,
            left,
            right,
            last_zero: word.last_zero,
            last_one: word.last_one,
        },
    }
}

// Of two, the first for channel 0, the second for channel 1.
fn side<const CHANNEL: usize, T: Copy>(left: T, right: T) -> T
    ensures { result ≡ side CHANNEL left right }
{
    if CHANNEL == 0 { left } else { right }
}

// The word of a channel, whose bits are left's where the channel is. As in `short_word` the channel is no
// argument of a call.
pub fn short_step<const CHANNEL: usize>(
    payload: &[u8],
    out: &mut [i32],
    from: Standing,
    w: u64,
) -> Step
    requires limit { length payload.now ≤ max_payload_bytes }
    requires inside { from.place / 8 + 16 ≤ length payload.now }
    requires room { from.written < length out.old }
    requires channel { from.written % 2 ≡ CHANNEL }
    requires ready { Ready payload.now from w }
    ensures { StepIs payload.now out.old out.new from result }
{
    let due = side::<CHANNEL, _>(from.left, from.right);
    let other = side::<CHANNEL, _>(from.right, from.left);
    let Some(word) = short_word::<CHANNEL>(w, due, other, from.last_zero, from.last_one) else {
        return Step {
            on: false,
            w,
            at: from,
        };
    };
    let left_bits = from.left_bits + side::<CHANNEL, _>(word.used, 0);
    let left = side::<CHANNEL, _>(word.medians, from.left);
    let right = side::<CHANNEL, _>(from.right, word.medians);
    stepped(payload, out, from, w, word, left_bits, left, right)
}
