// One block: its payload read, decorrelated and compared with the samples it was made from; these
// analysed, packed and compared with the payload.
ghost use Rattle.std.specs.Prelude.{◌≡◌, length};

use crate::record::read_passes;
use answers::Refusal;
use decorrelation::{decorrelate_array, recorrelate_array};
use inputs::read_full;
use pack_entry::encode_packed_samples_stereo_from_entropy;
use passes::DecorrPass;
use samples::reading::decode_packed_samples_stereo_from_entropy;
use std::io::Read;
use test_support::numbers::{fill, load_words, part, read_size};

// How much of each part a block holds.
#[derive(Clone, Copy)]
pub struct Head {
    pub frames: usize,
    pub passes: usize,
    pub length: usize,
}

// What became of a block: the bits that reading used, and what agrees with the file.
#[derive(Clone, Copy)]
pub struct Verdict {
    pub bits: usize,
    pub samples_agree: bool,
    pub bits_agree: bool,
}

// The sizes after a label.
pub fn read_head<R: Read>(file: &mut R) -> Head {
    let frames = read_size(file);
    let passes = read_size(file);
    let length = read_size(file);
    Head {
        frames,
        passes,
        length,
    }
}

// A block that is too long, that the file does not hold whole, or whose passes are refused.
fn neither() -> Verdict {
    Verdict {
        bits: 0,
        samples_agree: false,
        bits_agree: false,
    }
}

// Whether two bytes have the same bit at a place, counted from the start of a byte before them.
fn same_bit(a: u8, b: u8, place: usize) -> bool {
    (a >> (place % 8)) % 2 == (b >> (place % 8)) % 2
}

// Whether two lists both have this many bits, and the same ones.
fn same_bits(a: &[u8], b: &[u8], bits: usize) -> bool {
    for i in 0..bits {
        let at = i / 8;
        if at >= a.len() || at >= b.len() {
            return false;
        }
        if !same_bit(a[at], b[at], i) {
            return false;
        }
    }
    true
}

// Whether the samples, analysed and packed, are the payload's first bits, and no more or fewer than
// reading used.
fn packs_again(
    list: [DecorrPass; 16],
    count: usize,
    entropy: &[u8],
    payload: &[u8],
    bits: usize,
    buffer: &mut [i32],
) -> Result<bool, Refusal> {
    recorrelate_array(list, count, buffer)?;
    let frames = buffer.len() / 2;
    let mut out = large_buffer();
    let packed = encode_packed_samples_stereo_from_entropy(buffer, entropy, frames, &mut out)?;
    Ok(packed.bits == bits && same_bits(&out, payload, bits))
}

// The verdict on a payload and the samples that it was made from. The buffer has their length.
fn judge(
    list: [DecorrPass; 16],
    count: usize,
    entropy: &[u8],
    payload: &[u8],
    stored: &[i32],
    buffer: &mut [i32],
) -> Verdict {
    let frames = buffer.len() / 2;
    let answer = decode_packed_samples_stereo_from_entropy(entropy, payload, frames, buffer);
    let bits = answer.bits;
    let decorrelated = decorrelate_array(list, count, buffer);
    let accepted = answer.outcome.is_ok() && decorrelated.is_ok();
    let samples_agree = accepted && stored == &buffer[..];
    let again = packs_again(list, count, entropy, payload, bits, buffer);
    let bits_agree = accepted && again.unwrap_or(false);
    Verdict {
        bits,
        samples_agree,
        bits_agree,
    }
}

// 65,536 zeros. The `ensures` gives only the length, which lending the array needs.
fn large_buffer() -> [u8; 65536]
    ensures { 65536 ≡ length result }
{
    [0; 65536]
}

// 2,048 frames of zeros. The `ensures` gives only the length, which lending the array needs.
fn silence() -> [i32; 4096]
    ensures { 4096 ≡ length result }
{
    [0; 4096]
}

// Runs the block of a head, of up to 2,048 frames and 65,536 bytes: reads its entropy payload,
// passes, samples and payload from the file.
pub fn run<R: Read>(file: &mut R, head: Head) -> Verdict {
    let frames = head.frames;
    let length = head.length;
    if frames > 2048 {
        return neither();
    }
    let mut entropy = [0u8; 12];
    read_full(file, &mut entropy);
    let passes = read_passes(file, head.passes);
    let mut stored = silence();
    load_words(file, &mut stored, 2 * frames);
    let mut payload = large_buffer();
    let whole = fill(file, &mut payload, length);
    let Some(list) = passes else {
        return neither();
    };
    if !whole {
        return neither();
    }
    let mut buffer = silence();
    judge(
        list,
        head.passes,
        &entropy,
        part(&payload, length),
        part(&stored, 2 * frames),
        &mut buffer[..2 * frames],
    )
}
