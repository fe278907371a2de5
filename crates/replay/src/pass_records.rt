// Stored pass making, decorrelation and analysis.
use std::io::Read;
use test_support::numbers::{Stored, holds, load, part};

// The term with this 8-bit pattern.
fn term(pattern: u8) -> i8 {
    if pattern < 128 {
        pattern as i8
    } else {
        !((!pattern) as i8)
    }
}

// Whether a pass is refused or made as stored.
pub fn making_agrees<R: Read>(pattern: u32, file: &mut R) -> bool {
    let delta = i32::read_from(file);
    let weight_a = i32::read_from(file);
    let weight_b = i32::read_from(file);
    let count_a = u32::read_from(file) as usize;
    let count_b = u32::read_from(file) as usize;
    let mut seed_a = [0i32; 9];
    load(file, &mut seed_a);
    let mut seed_b = [0i32; 9];
    load(file, &mut seed_b);
    let mut pass = [0i32; 20];
    let refusal = wavpack_stereo::wv_pass(
        term((pattern % 256) as u8),
        delta,
        weight_a,
        weight_b,
        part(&seed_a, count_a),
        part(&seed_b, count_b),
        &mut pass,
    );
    (refusal == u32::read_from(file)) & holds(file, &pass)
}

// Analysis, or decorrelation, of a buffer by passes of 20 slots each.
fn run(analyse: bool, passes: &mut [i32], buffer: &mut [i32]) -> u32 {
    if analyse {
        wavpack_stereo::wv_analyse(passes, buffer)
    } else {
        wavpack_stereo::wv_decorrelate(passes, buffer)
    }
}

// The same of the first numbers of each list; 0, with nothing run, where a list has fewer; no `Option`, since
// what is printed of such a record stays.
fn run_parts(
    analyse: bool,
    passes: &mut [i32],
    count: usize,
    buffer: &mut [i32],
    length: usize,
) -> u32 {
    if count > passes.len() {
        return 0;
    }
    if length > buffer.len() {
        return 0;
    }
    run(analyse, &mut passes[..count], &mut buffer[..length])
}

// Whether a list of up to four passes over up to 24 numbers is run as stored.
pub fn passes_agree<R: Read>(direction: u32, file: &mut R) -> bool {
    let count = 20 * (u32::read_from(file) as usize);
    let length = u32::read_from(file) as usize;
    let mut passes = [0i32; 80];
    load(file, &mut passes);
    let mut buffer = [0i32; 24];
    load(file, &mut buffer);
    let refusal = run_parts(direction == 1, &mut passes, count, &mut buffer, length);
    (refusal == u32::read_from(file)) & holds(file, &passes) & holds(file, &buffer)
}
