// Stored packing.
use answers::limits::BYTES_PER_FRAME;
use inputs::read_full;
use std::io::Read;
use test_support::numbers::{Stored, holds, load, part};

// Packs up to eight frames: two residuals and 28 lent bytes each. 0, with nothing packed, for more
// frames or where the buffer has fewer bytes; no `Option`, since what is printed of such a record stays.
fn pack(
    residuals: &[i32],
    entropy: &[u8],
    frames: usize,
    out: &mut [u8],
    answer: &mut [u32],
) -> u32 {
    if frames > 8 {
        return 0;
    }
    let room = BYTES_PER_FRAME * frames;
    if room > out.len() {
        return 0;
    }
    wavpack_stereo::wv_pack(
        part(residuals, 2 * frames),
        entropy,
        frames,
        &mut out[..room],
        answer,
    )
}

// Whether the residuals of up to eight frames are refused or packed as stored.
pub fn packing_agrees<R: Read>(frames: u32, file: &mut R) -> bool {
    let mut entropy = [0u8; 12];
    read_full(file, &mut entropy);
    let mut residuals = [0i32; 16];
    load(file, &mut residuals);
    let mut out = [0u8; 224];
    let mut answer = [0u32; 7];
    let refusal = pack(&residuals, &entropy, frames as usize, &mut out, &mut answer);
    (refusal == u32::read_from(file)) & holds(file, &answer) & holds(file, &out)
}
