// Implements document 02 §5, the program: the morning page of a recording as `morning` reads it.

#![tactic(auto)]

ghost use Rattle.std.specs.Prelude.{◌≡◌, ◌≤◌, pos, length, replicate};
ghost use Rattle.answers.specs.Limits.{max_frames};
ghost use Rattle.morning_page.specs.Entry.{view_page};
ghost use Rattle.morning_text.specs.Input.{head_bytes, frame_count, input_entry};

use answers::Refusal;
use answers::limits::{MAX_ELEMENTS, MAX_FRAMES};
use little_endian::number;
use morning_page::morning_page;
use samples::reading::decode_packed_samples_stereo_from_entropy;

// What stands before the payload: 12 entropy bytes, and 4 of the frame count.
const HEAD_BYTES: usize = 16;

// The longest input that is not over the limits: its head, and the most payload bytes.
pub const LARGEST_INPUT: usize = 4194320;

// The bytes of the longest page: 128 lines.
pub const LARGEST_PAGE: usize = 5760;

// The frame count of an input that has one.
fn frame_count(input: &[u8]) -> usize
    requires { head_bytes ≤ length input.now }
    ensures { result ≡ frame_count input.now }
{
    number(input[12], input[13], input[14], input[15]) as usize
}

// Room for the samples of the most frames, all 0.
fn silence() -> [i32; MAX_ELEMENTS]
    ensures zeros { result ≡ replicate 262144 (pos 0) }
    ensures room { length result ≡ 262144 }
{
    [0; MAX_ELEMENTS]
}

// Reads an input whose frames have room, and writes the page of what was read.
fn read_page(input: &[u8], frames: usize, threshold: u32, page: &mut [u8]) -> Result<u32, Refusal>
    requires head { head_bytes ≤ length input.now }
    requires frames { (frames ≡ frame_count input.now) × (frames ≤ max_frames) }
    ensures { view_page result page.new
        ≡ input_entry threshold input.now page.old }
{
    let mut samples = silence();
    let n = 2 * frames;
    let answer = decode_packed_samples_stereo_from_entropy(
        &input[..12],
        &input[HEAD_BYTES..],
        frames,
        &mut samples[..n],
    );
    answer.outcome?;
    morning_page(&samples[..n], threshold, page)
}

// Writes the page of the recording that an input holds from the first byte of the storage on;
// answers how many bytes it has. Refuses an input under 16 bytes with 1, then what reading refuses,
// then short storage with 11; the storage then keeps its bytes.
pub fn input_page(input: &[u8], threshold: u32, page: &mut [u8]) -> Result<u32, Refusal>
    ensures { view_page result page.new
        ≡ input_entry threshold input.now page.old }
{
    if input.len() < HEAD_BYTES {
        return Err(Refusal::EntropyLength);
    }
    let frames = frame_count(input);
    if frames > MAX_FRAMES {
        return Err(Refusal::TooLarge);
    }
    read_page(input, frames, threshold, page)
}
