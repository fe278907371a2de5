// Runs the cases that the rules want run and not proved, and those of later requests beside them
// (data/, whose README says what a line holds), and prints a line for each: its name, the refusal
// and the values. What is printed is held to the file `stdout`.

#![tactic(auto)]

mod kinds;
mod lines;
mod lists;
mod payloads;
mod values;

use kinds::Kind;
use std::io::Read;
use std::{fs, io};
use test_support::lines::{print_name, read_kind};

// No file holds more cases than this. A proved loop has to end, and nothing says that a file does.
const MOST: u32 = 1000;

// Runs the cases of an open file, to its end.
fn run_cases<R: Read>(rt: &impl Print, file: &mut R) -> io::Result<()> {
    for _ in 0..MOST {
        let kind = read_kind(file);
        if kind == 0 {
            break;
        }
        print_name(rt, file)?;
        match Kind::try_from(kind) {
            Ok(kind) => kind.run(rt, file)?,
            Err(_) => println!(rt; " no such kind")?,
        }
    }
    Ok(())
}

fn main(rt: HostRuntime) -> io::Result<()> {
    let Ok(mut file) = fs::open(&rt, "cases.txt") else {
        return println!(rt; "cases.txt cannot be opened");
    };
    run_cases(&rt, &mut file)
}
