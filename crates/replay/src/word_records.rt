// Stored words and readings.
use inputs::read_full;
use std::io::Read;
use test_support::numbers::{Stored, holds, load, part};

// Whether a word, read from the state that a record holds, is refused or given as stored.
pub fn word_agrees<R: Read>(length: u32, file: &mut R) -> bool {
    let mut state = [0u32; 15];
    load(file, &mut state);
    let mut payload = [0u8; 16];
    read_full(file, &mut payload);
    let mut sample = [0i32; 1];
    let mut report = [0u32; 2];
    let read = part(&payload, length as usize);
    let refusal = wavpack_stereo::wv_word(read, &mut state, &mut sample, &mut report);
    let told = (refusal == u32::read_from(file)) & (sample[0] == i32::read_from(file));
    told & holds(file, &state) & holds(file, &report)
}

// Reads into the first two numbers a frame of a list; 0, with nothing read, where it has fewer; no `Option`,
// since what is printed of such a record stays.
fn read(
    entropy: &[u8],
    payload: &[u8],
    frames: u32,
    samples: &mut [i32],
    answer: &mut [u32],
) -> u32 {
    let count = 2 * (frames as usize);
    if count > samples.len() {
        return 0;
    }
    wavpack_stereo::wv_read(
        entropy,
        payload,
        frames as usize,
        &mut samples[..count],
        answer,
    )
}

// Whether a reading of up to 16 frames is answered as stored.
pub fn reading_agrees<R: Read>(length: u32, file: &mut R) -> bool {
    let frames = u32::read_from(file);
    let mut entropy = [0u8; 12];
    read_full(file, &mut entropy);
    let mut payload = [0u8; 48];
    read_full(file, &mut payload);
    let mut samples = [0i32; 32];
    let mut answer = [0u32; 10];
    let refusal = read(
        &entropy,
        part(&payload, length as usize),
        frames,
        &mut samples,
        &mut answer,
    );
    (refusal == u32::read_from(file)) & holds(file, &answer) & holds(file, &samples)
}
