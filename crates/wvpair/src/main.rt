// Implements document 01, "Proved cases" (C6, C7): the program `wvpair`. It reads standard input,
// and writes what `wvpair_text` makes of it to standard output. One byte more than the longest
// input is read, so that a longer one is over the limits. A read that fails ends the input.

#![tactic(auto)]

use inputs::read_full;
use std::io;
use wvpair_text::{LARGEST_INPUT, LARGEST_TEXT, wvpair_text};

fn main(rt: HostRuntime) -> io::Result<()> {
    let mut input = [0u8; LARGEST_INPUT + 1];
    let n = read_full(&mut rt.reader(), &mut input);
    let mut out = [0u8; LARGEST_TEXT];
    let length = wvpair_text(&input[..n], &mut out).unwrap_or(0);
    rt.write_all(&out[..length])
}
