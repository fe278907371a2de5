// Implements document 01, "Proved cases" (C6, C7): what `wvpair` prints, as a function from its
// input bytes to its output bytes. `wvpair_lines` lays the lines of a reading; here an input is taken
// apart, read and printed.

#![tactic(auto)]

ghost use Rattle.std.specs.Prelude.{◌≡◌, ◌≤◌, pos, length, replicate};
ghost use Rattle.wvpair_text.specs.Limits.{head_bytes, most_frames, largest_input, largest_text};
ghost use Rattle.decimal.specs.TextPut.{TextPut};
ghost use Rattle.wvpair_text.specs.Text.{frame_count, printed, reading_of, wvpair_text, TextIs};

use crate::limits::{HEAD_BYTES, MOST_FRAMES, MOST_SAMPLES};
use answers::{Refusal, number, outcome_number};
use samples::reading::decode_packed_samples_stereo_from_entropy;
use wvpair_lines::{put_end, put_report};

mod limits;

pub use crate::limits::{LARGEST_INPUT, LARGEST_TEXT};

// The frame count of an input that has one.
fn frame_count(input: &[u8]) -> usize
    requires { head_bytes ≤ length input.now }
    ensures { result ≡ frame_count input.now }
{
    usize::from(u16::from_le_bytes([input[12], input[13]]))
}

// Room for the samples of the most frames, all 0.
fn silence() -> [i32; MOST_SAMPLES]
    ensures { result ≡ replicate 2048 (pos 0) }
{
    [0; MOST_SAMPLES]
}

// Reads an input that is within the limits, and lays what is printed of the reading.
fn print_reading(input: &[u8], frames: usize, out: &mut [u8]) -> usize
    requires input { (head_bytes ≤ length input.now) × (length input.now ≤ largest_input) }
    requires frames { (frames ≡ frame_count input.now) × (frames ≤ most_frames) }
    requires room { largest_text ≤ length out.old }
    ensures { TextPut out.old out.new 0 result (printed (reading_of input.now)) }
{
    let mut samples = silence();
    let n = 2 * frames;
    let answer = decode_packed_samples_stereo_from_entropy(
        &input[..12],
        &input[HEAD_BYTES..],
        frames,
        &mut samples[..n],
    );
    let written = answer.written;
    put_report(
        out,
        &samples[..written],
        outcome_number(&answer.outcome),
        answer.bits,
    )
}

// Lays what is printed of any input into a buffer that holds the largest text.
fn print_input(input: &[u8], out: &mut [u8]) -> usize
    requires { largest_text ≤ length out.old }
    ensures { TextPut out.old out.new 0 result (wvpair_text input.now) }
{
    if input.len() < HEAD_BYTES {
        return put_end(out, 0, number(Refusal::EntropyLength), 0);
    }
    let frames = frame_count(input);
    if frames > MOST_FRAMES || input.len() > LARGEST_INPUT {
        return put_end(out, 0, number(Refusal::TooLarge), 0);
    }
    print_reading(input, frames, out)
}

// Lays what `wvpair` prints of `input` at the start of `out`, and answers how many bytes that is.
// It refuses only a buffer that is too short for the largest text: that one keeps its bytes.
pub fn wvpair_text(input: &[u8], out: &mut [u8]) -> Result<usize, Refusal>
    ensures { TextIs input.now out.old out.new result }
{
    if out.len() < LARGEST_TEXT {
        return Err(Refusal::OutputTooShort);
    }
    Ok(print_input(input, out))
}
