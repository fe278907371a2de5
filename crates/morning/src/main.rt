// Implements document 02 §5: the program `morning`. It reads a recording from standard input and
// writes its morning page to standard output; a refusal is one line with its number and reason. The
// threshold is its argument. One byte more than the longest input is read, so that a longer one is
// over the limits. A read that fails ends the input.

#![tactic(auto)]

mod arguments;
mod output;

use arguments::{has_more, read_word};
use inputs::read_full;
use morning_text::{LARGEST_INPUT, LARGEST_PAGE, input_page};
use output::{print, print_refusal};
use std::io;
use threshold::threshold_of;

// Room for a threshold: a number of 32 bits has ten digits.
const WORD_BYTES: usize = 32;

// Prints the page of the recording that an input holds, or why there is none.
fn print_input(rt: &impl Print, input: &[u8], threshold: u32) -> io::Result<()> {
    let mut page = [0u8; LARGEST_PAGE];
    match input_page(input, threshold, &mut page) {
        Ok(written) => print(rt, &page[..written as usize]),
        Err(refusal) => print_refusal(rt, refusal),
    }
}

// Prints the page of the recording on standard input, for which room is lent.
fn print_read(rt: &(impl Input + Print), room: &mut [u8], threshold: u32) -> io::Result<()> {
    let n = read_full(&mut rt.reader(), room);
    print_input(rt, &room[..n], threshold)
}

// The same, with room for the longest input and a byte more.
fn print_page(rt: &(impl Input + Print), threshold: u32) -> io::Result<()> {
    let mut input = [0u8; LARGEST_INPUT + 1];
    print_read(rt, &mut input, threshold)
}

fn main(rt: HostRuntime) -> io::Result<()> {
    let mut word = [0u8; WORD_BYTES];
    let n = read_word(&rt, &mut word);
    match threshold_of(&word[..n]) {
        Some(threshold) if !has_more(&rt) => print_page(&rt, threshold),
        _ => print(
            &rt,
            b"usage: morning THRESHOLD <RECORDING, a threshold from 0 to 4294967295\n",
        ),
    }
}
