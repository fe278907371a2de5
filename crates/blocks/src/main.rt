// Runs the blocks that `wavpack` wrote (data/, whose README says how they were made): reads each,
// decorrelates it to the samples that it was made from, analyses these and packs them again, and
// prints whether the samples and the bits are the file's.

#![tactic(auto)]

mod block;
mod record;

use block::{Head, Verdict};
use inputs::read_full;
use std::io::Read;
use std::{fs, io};
use test_support::printing::print;

// No file holds more blocks than this. A proved loop has to end, and nothing says that a file does.
const MOST: u32 = 1000;

fn agreement(agrees: bool) -> &'static str {
    if agrees { "agree" } else { "DIFFER" }
}

// The line about a block, after its label.
fn print_verdict(rt: &impl Print, head: Head, verdict: Verdict) -> io::Result<()> {
    let Head { frames, passes, .. } = head;
    let bits = verdict.bits;
    let samples = agreement(verdict.samples_agree);
    let packed = agreement(verdict.bits_agree);
    println!(rt; "{frames} frames, {passes} passes, {bits} bits, samples {samples}, bits {packed}")
}

// Runs the next block of an open file. False where the file ends before another label.
fn next<R: Read>(rt: &impl Print, file: &mut R) -> io::Result<bool> {
    let mut label = [0u8; 24];
    if read_full(file, &mut label) < 24 {
        return Ok(false);
    }
    print(rt, &label)?;
    let head = block::read_head(file);
    let verdict = block::run(file, head);
    print_verdict(rt, head, verdict)?;
    Ok(true)
}

// Runs the blocks of an open file, to its end, and answers how many there are.
fn run_blocks<R: Read>(rt: &impl Print, file: &mut R) -> io::Result<u32> {
    for count in 0..MOST {
        if !next(rt, file)? {
            return Ok(count);
        }
    }
    Ok(MOST)
}

fn main(rt: HostRuntime) -> io::Result<()> {
    let Ok(mut file) = fs::open(&rt, "blocks.bin") else {
        return println!(rt; "blocks.bin cannot be opened");
    };
    let count = run_blocks(&rt, &mut file)?;
    println!(rt; "{count} blocks")
}
