// Cases of entropy payloads, and of what is read and packed under one.
use crate::lines::{print_refusal, print_values};
use crate::lists::some_pass;
use entropy::EntropyInfo;
use entropy_info::expand_entropy;
use pack_entry::encode_packed_samples_stereo_from_entropy;
use samples::reading::decode_packed_samples_stereo_from_entropy;
use std::io;
use std::io::Read;
use test_support::lines::read_list;
use test_support::numbers::part;
use test_support::printing::print_list;
use trip_entry::round_trip;

// An entropy payload, and its six medians.
pub fn run_entropy<R: Read>(rt: &impl Print, file: &mut R) -> io::Result<()> {
    let mut bytes = [0u8; 12];
    let length = read_list(file, &mut bytes);
    let answer = expand_entropy(part(&bytes, length));
    print_refusal(rt, &answer)?;
    let info = answer.unwrap_or(EntropyInfo {
        medians_left: [0; 3],
        medians_right: [0; 3],
    });
    print_list(rt, &info.medians_left)?;
    print_values(rt, &info.medians_right)
}

// One frame of a packed payload: the bits used, those of left and of right, the samples written, and the
// list, which held 77 before.
fn read_frame(rt: &impl Print, entropy: &[u8], payload: &[u8]) -> io::Result<()> {
    let mut list = [77, 77];
    let answer = decode_packed_samples_stereo_from_entropy(entropy, payload, 1, &mut list);
    print_refusal(rt, &answer.outcome)?;
    let bits = answer.bits;
    let [left, right] = answer.bits_read;
    let written = answer.written;
    print!(rt; " bits {bits} left {left} right {right} written {written}")?;
    print_values(rt, &list)
}

// The same of an entropy payload and a payload.
pub fn run_reading<R: Read>(rt: &impl Print, file: &mut R) -> io::Result<()> {
    let mut entropy = [0u8; 12];
    let count = read_list(file, &mut entropy);
    let mut payload = [0u8; 12];
    let length = read_list(file, &mut payload);
    read_frame(rt, part(&entropy, count), part(&payload, length))
}

// The frame 3 -1, packed: the bits written, and the first two bytes of the buffer, which held 77
// before.
pub fn run_packing<R: Read>(rt: &impl Print, file: &mut R) -> io::Result<()> {
    let mut bytes = [0u8; 12];
    let length = read_list(file, &mut bytes);
    let mut out = [77u8; 28];
    let answer = encode_packed_samples_stereo_from_entropy(
        &[3, -1],
        part(&bytes, length),
        1,
        &mut out,
    );
    print_refusal(rt, &answer)?;
    let bits = answer.map_or(0, |packed| packed.bits);
    let [first, second, ..] = out;
    println!(rt; " bits {bits} bytes {first} {second}")
}

// Two frames analysed by one pass, packed, read and decorrelated: the bits, and whether they came
// back.
pub fn run_trip<R: Read>(rt: &impl Print, file: &mut R) -> io::Result<()> {
    let mut bytes = [0u8; 12];
    let length = read_list(file, &mut bytes);
    let recording = [1000, -1000, 100, 50];
    let mut scratch = [0i32; 4];
    let mut packed = [0u8; 56];
    let passes = [some_pass(); 16];
    let answer = round_trip(
        passes,
        1,
        &recording,
        part(&bytes, length),
        &mut scratch,
        &mut packed,
    );
    print_refusal(rt, &answer)?;
    let bits = answer.map_or(0, |trip| trip.bits);
    if answer.is_ok_and(|trip| trip.same) {
        println!(rt; " bits {bits} came back")
    } else {
        println!(rt; " bits {bits} did not come back")
    }
}
