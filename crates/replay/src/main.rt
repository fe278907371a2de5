// Replays the stored answers of the published Rust (data/, whose README says how they were made)
// through the proved functions, and prints for each kind how many there are and how many agree.

#![tactic(auto)]

mod kinds;
mod pack_records;
mod pass_records;
mod word_records;

use kinds::{Kind, agrees};
use std::io::Read;
use std::rt::Files;
use std::{fs, io};
use test_support::numbers::next_number;

// No file holds more records than this. A proved loop has to end, and nothing says that a file
// does.
const MOST: u32 = 1000000;

// How many records a file holds, and on how many of them the proved function answers as stored.
#[derive(Clone, Copy)]
struct Tally {
    replayed: u32,
    agreed: u32,
}

// Replays the records of one open file, to its end.
fn replay<R: Read>(kind: Kind, file: &mut R) -> Tally {
    let mut agreed: u32 = 0;
    for replayed in 0..MOST {
        let Some(first) = next_number(file) else {
            return Tally { replayed, agreed };
        };
        if agrees(kind, first, file, replayed) {
            agreed += 1;
        }
    }
    Tally {
        replayed: MOST,
        agreed,
    }
}

// Replays one file and prints the line about it. A file that cannot be opened has a line of its
// own.
fn replay_file(rt: &(impl Files + Print), kind: Kind, path: &str) -> io::Result<()> {
    print!(rt; "{path}")?;
    let Ok(mut file) = fs::open(rt, path) else {
        return println!(rt; ": cannot be opened");
    };
    let Tally { replayed, agreed } = replay(kind, &mut file);
    println!(rt; ": {replayed} replayed, {agreed} agree")
}

fn main(rt: HostRuntime) -> io::Result<()> {
    replay_file(&rt, Kind::LogWords, "log_words.bin")?;
    replay_file(&rt, Kind::TermBytes, "term_bytes.bin")?;
    replay_file(&rt, Kind::WeightBytes, "weight_bytes.bin")?;
    replay_file(&rt, Kind::Entropy, "entropy.bin")?;
    replay_file(&rt, Kind::Words, "words.bin")?;
    replay_file(&rt, Kind::Readings, "readings.bin")?;
    replay_file(&rt, Kind::PassMaking, "pass_making.bin")?;
    replay_file(&rt, Kind::Passes, "passes.bin")?;
    replay_file(&rt, Kind::Packings, "packings.bin")
}
